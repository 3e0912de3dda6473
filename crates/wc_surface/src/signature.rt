//! Function types as they are written.

ghost use Rattle.std.specs.Prelude.{◌≡◌, ◌++◌, ◌∷◌, IfOk, OnOk, IfSome, OnSome};
ghost use Rattle.wc_surface.specs.Kept.Keyed.{key_in};
ghost use Rattle.wc_surface.specs.Standard.Keys.{func_type, type_bytes, result_bytes, key_of};

use crate::few_bytes::FewBytes;
use crate::rare::Apart;
use std::alloc::{AllocError, Global};
use std::marker::Model;
use wc_ops::ValType;

/// The bytes of a key: in place, or in memory of their own.
#[derive(Drop)]
enum KeyBytes {
    Few(FewBytes),
    Many(Apart<Vec<u8>>),
}

/// Parameters and results as they are written (Core 1.0, 6.4.3). A contract sees the function type. It is kept as its
/// key, one row of bytes. One of up to 14 bytes takes no memory of its own.
#[derive(Drop)]
pub struct Signature {
    bytes: KeyBytes,
}

impl Model for Signature {
    ghost use Rattle.wc_ast.specs.declared.func_type.FuncType.{FuncType};

    ghost Value = { FuncType };

    ghost use Rattle.wc_surface.specs.Kept.Keyed.{key_in, keyed, IsKey};

    ghost view = { λ signature. keyed (key_in signature.bytes) };

    ghost invariant = { λ signature. IsKey (key_in signature.bytes) };
}

impl Signature {
    /// The function type of these parameters and results. A key of up to 14 bytes takes no memory. The error is want of
    /// memory.
    pub fn new(
        alloc: Global,
        params: &[ValType],
        results: &[ValType],
    ) -> Result<Signature, AllocError>
        ensures { IfOk result (λ signature. signature ≡ func_type params.now results.now) }
    {
        Ok(Signature {
            bytes: key_bytes(alloc, params, results)?,
        })
    }

    /// Its key: function types are equal where their keys are. It takes no memory.
    #[inline(always)]
    pub fn key(&self) -> &[u8]
        ensures { result.now ≡ key_of self.now }
    {
        match &self.bytes {
            KeyBytes::Few(bytes) => bytes.as_slice(),
            KeyBytes::Many(bytes) => bytes.get().as_slice(),
        }
    }
}

/// The key of these parameters and results. The error is want of memory.
#[inline(always)]
fn key_bytes(alloc: Global, params: &[ValType], results: &[ValType]) -> Result<KeyBytes, AllocError>
    ensures { IfOk result (λ bytes. key_in bytes ≡ key_of (func_type params.now results.now)) }
{
    match few_bytes(params, results) {
        Some(bytes) => Ok(KeyBytes::Few(bytes)),
        None => Ok(KeyBytes::Many(Apart::new(alloc, many_bytes(alloc, params, results)?)?)),
    }
}

/// The key of these parameters and results, where it lies in place.
#[inline(always)]
fn few_bytes(params: &[ValType], results: &[ValType]) -> Option<FewBytes>
    ensures { IfSome result (λ bytes. bytes ≡ key_of (func_type params.now results.now)) }
{
    let mut bytes = FewBytes::new();
    put_few_types(&mut bytes, params)?;
    put_few_results(&mut bytes, results)?;
    Some(bytes)
}

#[inline(always)]
fn put_few_types(bytes: &mut FewBytes, types: &[ValType]) -> Option<()>
    ensures { OnSome result (bytes.new ≡ bytes.old ++ type_bytes types.now) }
{
    for value_type in types {
        bytes.try_push(value_type.byte())?;
    }
    Some(())
}

#[inline(always)]
fn put_few_results(bytes: &mut FewBytes, results: &[ValType]) -> Option<()>
    ensures { OnSome result (bytes.new ≡ bytes.old ++ result_bytes results.now) }
{
    if results.is_empty() {
        return Some(());
    }
    bytes.try_push(0)?;
    put_few_types(bytes, results)
}

/// The key of these parameters and results, in memory of its own. The error is want of memory.
fn many_bytes(alloc: Global, params: &[ValType], results: &[ValType]) -> Result<Vec<u8>, AllocError>
    ensures { IfOk result (λ bytes. bytes.items ≡ key_of (func_type params.now results.now)) }
{
    let most = params.len().saturating_add(results.len()).saturating_add(1);
    let mut bytes = Vec::with_capacity(alloc, most)?;
    put_types(&mut bytes, params)?;
    put_results(&mut bytes, results)?;
    Ok(bytes)
}

fn put_types(bytes: &mut Vec<u8>, types: &[ValType]) -> Result<(), AllocError>
    ensures { OnOk result (bytes.new.items ≡ bytes.old.items ++ type_bytes types.now) }
{
    for value_type in types {
        bytes.push(value_type.byte())?;
    }
    Ok(())
}

fn put_results(bytes: &mut Vec<u8>, results: &[ValType]) -> Result<(), AllocError>
    ensures { OnOk result (bytes.new.items ≡ bytes.old.items ++ result_bytes results.now) }
{
    if results.is_empty() {
        return Ok(());
    }
    bytes.push(0)?;
    put_types(bytes, results)
}
