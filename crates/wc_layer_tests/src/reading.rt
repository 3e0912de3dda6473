//! A text read token by token.

use std::test::Fail;
use wc_syntax::{Kind, Reading, Refusal, Role, SynWhy};

/// The role of a token, or why it is refused.
type Answer = Result<Option<Role>, SynWhy>;

/// The tokens of `( func nop )`, with a refused one in between; what is answered to each, and whether the tokens so
/// far are a text.
static TAKEN: [(usize, Kind, Answer, bool); 5] = [
    (0, Kind::Open, Ok(None), false),
    (1, Kind::FuncWord, Ok(Some(Role::Field)), false),
    // the reader stands where it stood
    (2, Kind::ThenWord, Err(SynWhy::NoInstruction), false),
    (2, Kind::Simple, Ok(Some(Role::Plain)), false),
    (3, Kind::Close, Ok(Some(Role::FieldEnd)), true),
];

/// What is answered to a token; nothing where another one is told, or memory is refused.
fn answer(reading: &mut Reading, at: usize, kind: Kind) -> Option<Answer> {
    match reading.take(at, kind) {
        Ok(role) => Some(Ok(role)),
        Err(Refusal::Bad { token, why }) if token == at => Some(Err(why)),
        Err(_) => None,
    }
}

#[test]
fn a_refused_token_changes_nothing(rt: HostRuntime) -> Result<(), Fail> {
    let mut reading = Reading::new(rt.alloc(), 2);
    assert!(rt; reading.is_text());
    for &(at, kind, wanted, is_text) in &TAKEN {
        assert_eq!(rt; answer(&mut reading, at, kind), Some(wanted));
        assert_eq!(rt; reading.is_text(), is_text, "token {at}");
    }
    Ok(())
}
