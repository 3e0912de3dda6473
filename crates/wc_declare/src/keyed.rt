//! Function types read back from their keys.

ghost use Rattle.std.specs.Prelude.{◌≡◌, ◌++◌, ◌∷◌, ℕ, List, IfOk, OnOk};
ghost use Rattle.wc_surface.specs.Kept.Keyed.{byte_type, keyed};
ghost use Rattle.wc_declare.specs.Kept.Rest.{rest_params, rest_results};

use std::alloc::{AllocError, Global};
use wc_ast::{FuncType, List as AstList, ValType};

/// A key that is being read.
#[derive(Drop)]
pub struct Reading {
    params: Vec<ValType>,
    results: Vec<ValType>,
    // Whether the zero was read.
    behind: bool,
}

fn type_of(byte: u8) -> ValType
    ensures { result ≡ byte_type byte }
{
    ValType::of_byte(byte).unwrap_or(ValType::I64)
}

/// Reads one more byte.
fn put(reading: &mut Reading, byte: u8) -> Result<(), AllocError>
    ensures params { (bytes : List ℕ) → OnOk result (reading.new.params.items ++ rest_params reading.new.behind bytes
        ≡ reading.old.params.items ++ rest_params reading.old.behind (byte ∷ bytes)) }
    ensures results { (bytes : List ℕ) → OnOk result (reading.new.results.items ++ rest_results reading.new.behind bytes
        ≡ reading.old.results.items ++ rest_results reading.old.behind (byte ∷ bytes)) }
{
    if reading.behind {
        reading.results.push(type_of(byte))?;
        return Ok(());
    }
    if byte == 0 {
        reading.behind = true;
        return Ok(());
    }
    reading.params.push(type_of(byte))?;
    Ok(())
}

/// The function type that has this key.
pub(crate) fn type_of_key(alloc: Global, key: &[u8]) -> Result<FuncType, AllocError>
    ensures { IfOk result (λ found. found ≡ keyed key.now) }
{
    let mut reading = Reading {
        params: Vec::new(alloc),
        results: Vec::new(alloc),
        behind: false,
    };
    for byte in key {
        put(&mut reading, *byte)?;
    }
    let Reading {
        params,
        results,
        ..
    } = reading;
    Ok(FuncType {
        params: AstList::from_vec(params),
        results: AstList::from_vec(results),
    })
}
