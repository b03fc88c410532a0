// The longest token at the front of some bytes.
//
// One pass over the bytes, from state to state (see `state.rt`). The longest token so far is noted at each place where one ends; the
// pass stops at the first byte with which no token goes on. It reads at most three bytes behind the token that it finds, or it finds
// none.

ghost use Rattle.std.specs.Prelude.{◌≡◌, ◌<◌, ◌≤◌, length, IfSome};
ghost use Rattle.sql_text.specs.Scan as spec;
ghost use Rattle.sql_text.specs.Token.{IsLongest};

use crate::state::{State, is_quoted, kind, step};
use crate::token::TokenKind;

fn goes_into_quotes(next: Option<State>) -> bool
    ensures { result ≡ spec.goes_into_quotes next }
{
    match next {
        Some(state) => is_quoted(state),
        None => false,
    }
}

fn noted(
    best: Option<(TokenKind, usize)>,
    at: usize,
    kind: Option<TokenKind>,
) -> Option<(TokenKind, usize)>
    ensures { result ≡ spec.noted best at kind }
{
    match kind {
        Some(kind) => Some((kind, at)),
        None => best,
    }
}

fn ended(state: State, next: Option<State>) -> Option<TokenKind>
    ensures { result ≡ spec.ended_before state next }
{
    if goes_into_quotes(next) {
        None
    } else {
        kind(state)
    }
}

#[tactic(auto, unfolding(crate::specs::Scan::scan))]
fn scan(bytes: &[u8]) -> Option<(TokenKind, usize)>
    ensures { result ≡ spec.longest bytes.now }
{
    let mut best = None;
    let mut at = 0;
    let mut state = State::Start;
    let mut left = bytes;
    while let Some((byte, rest)) = left.split_first() {
        let next = step(state, *byte);
        best = noted(best, at, ended(state, next));
        let Some(after) = next else {
            return best;
        };
        state = after;
        at += 1;
        left = rest;
    }
    noted(best, at, kind(state))
}

/// The kind and the size of the longest token that begins the bytes; none where no token does.
pub fn longest(bytes: &[u8]) -> Option<(TokenKind, usize)>
    ensures longest { IsLongest bytes.now result }
    ensures found { result ≡ spec.longest bytes.now }
    ensures within { IfSome result (λ p. (0 < p.1) × (p.1 ≤ length bytes.now)) }
{
    scan(bytes)
}
