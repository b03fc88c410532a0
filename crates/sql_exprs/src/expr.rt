// Expressions, down the ladder of levels.
ghost use Rattle.std.specs.Prelude.{◌≡◌, ◌+◌, ◌≤◌, ◌<◌, option_map, IfSome, IfOk, MatchResult, None, Some};
ghost use Rattle.grammars.specs.Grammar.{must};
ghost use Rattle.grammars.specs.Reading.{next, read};
ghost use Rattle.sql_lexemes.specs.declared.lexeme.Symbol.TheVariants as sign;
ghost use Rattle.sql_grammar.specs.Lexemes as lexemes_are;
ghost use Rattle.sql_grammar.specs.Expr as spec;
ghost use Rattle.sql_grammar.specs.Expr.{nothing, less};
ghost use Rattle.sql_exprs.specs.Gives.{Gives};

use crate::lexeme::{ParseError, after, after_least, column_name, expect, name};
use disk_face::{Bytes, Txt};
use sql_grammar::{Deep, Expr, Link, Op, Place};
use sql_lexemes::{Function, Lexeme, Symbol};
use sqlite_items::Boxed;
use std::alloc::{AllocError, Global};

/// An expression is read no deeper than this.
pub const MAX_DEPTH: u32 = 100;

fn leaf(expr: Expr) -> Deep
    ensures { result ≡ spec.leaf expr }
{
    Deep { expr, depth: 0 }
}

fn one(alloc: Global, op: Op, inner: Deep) -> Result<Deep, AllocError>
    requires { inner.depth ≤ 100 }
    ensures { IfOk result (λ d. d ≡ spec.one op inner) }
{
    Ok(Deep {
        expr: Expr::One(op, Boxed::new(alloc, inner.expr)?),
        depth: inner.depth + 1,
    })
}

fn two(alloc: Global, op: Op, left: Deep, right: Deep) -> Result<Deep, AllocError>
    requires left { left.depth ≤ 100 }
    requires right { right.depth ≤ 100 }
    ensures { IfOk result (λ d. d ≡ spec.two op left right) }
{
    Ok(Deep {
        expr: Expr::Two(
            op,
            Boxed::new(alloc, left.expr)?,
            Boxed::new(alloc, right.expr)?,
        ),
        depth: left.depth.max(right.depth) + 1,
    })
}

fn bracketed(inner: Deep) -> Deep
    requires { inner.depth ≤ 100 }
    ensures { result ≡ spec.bracketed inner }
{
    Deep {
        expr: inner.expr,
        depth: inner.depth + 1,
    }
}

fn aggregate(alloc: Global, function: Function, inner: Deep) -> Result<Deep, AllocError>
    requires { inner.depth ≤ 100 }
    ensures { IfOk result (λ d. d ≡ spec.aggregate function inner) }
{
    Ok(Deep {
        expr: Expr::Aggregate(function, Boxed::new(alloc, inner.expr)?),
        depth: inner.depth + 1,
    })
}

/// The level of a sign between two operands, and what stands there.
fn infix(symbol: Symbol) -> Option<(u8, Link)>
    ensures { result ≡ spec.infix_of symbol }
{
    match symbol {
        Symbol::Or => Some((8, Link::Two(Op::Or))),
        Symbol::And => Some((7, Link::Two(Op::And))),
        Symbol::Equal => Some((5, Link::Two(Op::Equal))),
        Symbol::Unequal => Some((5, Link::Two(Op::Unequal))),
        Symbol::Is => Some((5, Link::Is)),
        Symbol::Less => Some((4, Link::Two(Op::Less))),
        Symbol::AtMost => Some((4, Link::Two(Op::AtMost))),
        Symbol::More => Some((4, Link::Two(Op::More))),
        Symbol::AtLeast => Some((4, Link::Two(Op::AtLeast))),
        Symbol::Plus => Some((3, Link::Two(Op::Add))),
        Symbol::Minus => Some((3, Link::Two(Op::Sub))),
        Symbol::Star => Some((2, Link::Two(Op::Mul))),
        Symbol::Slash => Some((2, Link::Two(Op::Div))),
        Symbol::Percent => Some((2, Link::Two(Op::Rem))),
        _ => None,
    }
}

fn operation(lexeme: &Lexeme) -> Option<(u8, Link)>
    ensures { result ≡ spec.operation lexeme.now }
{
    match lexeme {
        Lexeme::Symbol(symbol) => infix(*symbol),
        _ => None,
    }
}

fn on_rung(level: u8, found: Option<(u8, Link)>) -> Option<Link>
    ensures { result ≡ spec.on_rung level found }
{
    match found {
        Some((at, link)) if at == level => Some(link),
        _ => None,
    }
}

/// What may stand behind the operand, where it stands at the front.
fn link_at<'a>(
    room: u32,
    level: u8,
    left: &Deep,
    lexemes: &'a [Lexeme],
) -> Option<(Link, &'a [Lexeme])>
    ensures reads { next (spec.may_link room level left.now) lexemes.now ≡ option_map (λ p. (p.0, p.1.now)) result }
    ensures room { IfSome result (λ _. left.now.depth < room) }
{
    let (first, rest) = lexemes.split_first()?;
    if left.depth >= room {
        return None;
    }
    let link = on_rung(level, operation(first))?;
    Some((link, rest))
}

fn takes_alone(place: Place) -> bool
    ensures { result ≡ spec.takes_alone place }
{
    match place {
        Place::Sorted => false,
        _ => true,
    }
}

fn takes_aggregates(place: Place) -> bool
    ensures { result ≡ spec.takes_aggregates place }
{
    match place {
        Place::Plain => false,
        _ => true,
    }
}

/// The place behind the first token of an expression.
fn within(place: Place) -> Place
    ensures { result ≡ spec.within place }
{
    match place {
        Place::Sorted => Place::Listed,
        other => other,
    }
}

fn leaf_of(alloc: Global, place: Place, lexeme: &Lexeme) -> Result<Option<Expr>, AllocError>
    ensures { IfOk result (λ found. found ≡ spec.leaf_of place lexeme.now) }
{
    match lexeme {
        Lexeme::Symbol(Symbol::Null) => Ok(Some(Expr::Null)),
        Lexeme::Int { value, alone } => {
            if *alone && !takes_alone(place) {
                Ok(None)
            } else {
                Ok(Some(Expr::Int(*value)))
            }
        }
        Lexeme::Text(text) => Ok(Some(Expr::Text(Txt::of(alloc, text.as_slice())?))),
        Lexeme::Blob(bytes) => Ok(Some(Expr::Blob(Bytes::of(alloc, bytes.as_slice())?))),
        _ => Ok(None),
    }
}

/// The literal at the front, and the lexemes after it.
fn literal(
    alloc: Global,
    place: Place,
    lexemes: &[Lexeme],
) -> Result<Option<(Expr, &[Lexeme])>, AllocError>
    ensures { IfOk result (λ found. next (spec.leaf_of place) lexemes.now ≡ option_map (λ p. (p.0, p.1.now)) found) }
{
    let Some((first, rest)) = lexemes.split_first() else {
        return Ok(None);
    };
    match leaf_of(alloc, place, first)? {
        Some(expr) => Ok(Some((expr, rest))),
        None => Ok(None),
    }
}

fn aggregate_of(place: Place, lexeme: &Lexeme) -> Option<Function>
    ensures { spec.aggregate_of place lexeme.now ≡ result }
{
    match lexeme {
        Lexeme::Aggregate { function, .. } => {
            if takes_aggregates(place) {
                Some(*function)
            } else {
                None
            }
        }
        _ => None,
    }
}

/// The aggregate at the front, where one may stand, and the lexemes after it.
fn after_aggregate(place: Place, lexemes: &[Lexeme]) -> Option<(Function, &[Lexeme])>
    ensures { next (spec.aggregate_of place) lexemes.now ≡ option_map (λ p. (p.0, p.1.now)) result }
{
    let (first, rest) = lexemes.split_first()?;
    let function = aggregate_of(place, first)?;
    Some((function, rest))
}

fn counts(function: Function) -> bool
    ensures { spec.counts (Some function) ≡ lexemes_are.given result }
{
    match function {
        Function::Count => true,
        _ => false,
    }
}

/// The lexemes after COUNT, where it stands at the front and an aggregate may stand there.
fn after_count(place: Place, lexemes: &[Lexeme]) -> Option<&[Lexeme]>
    ensures { next (spec.count_all_of place) lexemes.now ≡ option_map (λ rest. (tt, rest.now)) result }
{
    let (first, rest) = lexemes.split_first()?;
    let function = aggregate_of(place, first)?;
    if counts(function) { Some(rest) } else { None }
}

/// A column, behind its first name.
#[tactic(auto, unfolding(sql_grammar::specs::Expr::column))]
fn column(
    alloc: Global,
    first: Txt,
    lexemes: &[Lexeme],
) -> Result<(Deep, &[Lexeme]), ParseError<'_>>
    ensures reads { Gives (λ x. (x.0, x.1.now)) result (read (spec.column first) lexemes.now) }
    ensures deep { IfOk result (λ x. x.0.depth ≡ 0) }
{
    match after(Symbol::Dot, lexemes) {
        Some(rest) => match name(alloc, rest)? {
            Some((second, rest)) => Ok((
                leaf(Expr::Column {
                    table: Some(first),
                    name: second,
                }),
                rest,
            )),
            None => Err(ParseError::At(rest)),
        },
        None => Ok((
            leaf(Expr::Column {
                table: None,
                name: first,
            }),
            lexemes,
        )),
    }
}

/// The end of COUNT(*), behind the star.
#[tactic(auto, unfolding(sql_grammar::specs::Expr::count_all))]
fn count_all(lexemes: &[Lexeme]) -> Result<(Deep, &[Lexeme]), ParseError<'_>>
    ensures reads { Gives (λ x. (x.0, x.1.now)) result (read spec.count_all lexemes.now) }
    ensures deep { IfOk result (λ x. x.0.depth ≡ 0) }
{
    let rest = expect(Symbol::Close, lexemes)?;
    Ok((leaf(Expr::CountAll), rest))
}

/// A term where there is no depth left.
fn shallow_term(
    alloc: Global,
    place: Place,
    lexemes: &[Lexeme],
) -> Result<(Deep, &[Lexeme]), ParseError<'_>>
    ensures reads { Gives (λ x. (x.0, x.1.now)) result (read (spec.term place nothing) lexemes.now) }
    ensures deep { IfOk result (λ x. x.0.depth ≡ 0) }
{
    if let Some((expr, rest)) = literal(alloc, place, lexemes)? {
        return Ok((leaf(expr), rest));
    }
    if let Some(rest) = after_count(place, lexemes) {
        let rest = expect(Symbol::Open, rest)?;
        let rest = expect(Symbol::Star, rest)?;
        return count_all(rest);
    }
    match column_name(alloc, lexemes)? {
        Some((first, rest)) => column(alloc, first, rest),
        None => Err(ParseError::At(lexemes)),
    }
}

/// A term or the least integer, where there is no depth left.
fn shallow_signed(
    alloc: Global,
    place: Place,
    lexemes: &[Lexeme],
) -> Result<(Deep, &[Lexeme]), ParseError<'_>>
    ensures reads { Gives (λ x. (x.0, x.1.now)) result (read (spec.signed place nothing (spec.term place nothing)) lexemes.now) }
    ensures deep { IfOk result (λ x. x.0.depth ≡ 0) }
{
    match after(Symbol::Minus, lexemes) {
        Some(rest) => match after_least(rest) {
            Some(rest) => Ok((leaf(Expr::Int(i64::MIN)), rest)),
            None => Err(ParseError::At(rest)),
        },
        None => shallow_term(alloc, place, lexemes),
    }
}

/// IS [NOT] NULL, behind IS.
#[tactic(auto, unfolding(sql_grammar::specs::Expr::null_test))]
fn null_test(
    alloc: Global,
    left: Deep,
    lexemes: &[Lexeme],
) -> Result<(Deep, &[Lexeme]), ParseError<'_>>
    requires { left.depth ≤ 100 }
    ensures reads { Gives (λ x. (x.0, x.1.now)) result (read (spec.null_test left) lexemes.now) }
    ensures deep { IfOk result (λ x. x.0.depth ≡ left.depth + 1) }
{
    match after(Symbol::Not, lexemes) {
        Some(rest) => {
            let rest = expect(Symbol::Null, rest)?;
            Ok((one(alloc, Op::IsNotNull, left)?, rest))
        }
        None => {
            let rest = expect(Symbol::Null, lexemes)?;
            Ok((one(alloc, Op::IsNull, left)?, rest))
        }
    }
}

/// An expression of this level whose depth is at most the room.
#[cycle(ladder)]
pub fn expression(
    alloc: Global,
    room: u32,
    place: Place,
    level: u8,
    lexemes: &[Lexeme],
) -> Result<(Deep, &[Lexeme]), ParseError<'_>>
    requires room { room ≤ 100 }
    requires level { level ≤ 8 }
    ensures reads { Gives (λ x. (x.0, x.1.now)) result (read (spec.ladder room place level) lexemes.now) }
    ensures deep { IfOk result (λ x. x.0.depth ≤ room) }
{
    if room == 0 {
        return if level == 0 {
            shallow_term(alloc, place, lexemes)
        } else {
            shallow_signed(alloc, place, lexemes)
        };
    }
    if level == 0 {
        return term(alloc, room - 1, place, lexemes);
    }
    if level == 1 {
        return signed(alloc, room - 1, place, lexemes);
    }
    if level == 6 {
        return negation(alloc, room - 1, place, lexemes);
    }
    binary(alloc, room - 1, place, level - 1, lexemes)
}

/// What stands in the brackets of an aggregate, and its end.
#[cycle(ladder)]
#[tactic(auto, unfolding(sql_grammar::specs::Expr::argument))]
fn argument(
    alloc: Global,
    room: u32,
    function: Function,
    lexemes: &[Lexeme],
) -> Result<(Deep, &[Lexeme]), ParseError<'_>>
    requires { room < 100 }
    ensures reads { Gives (λ x. (x.0, x.1.now)) result (read (spec.argument (spec.ladder room) function) lexemes.now) }
    ensures deep { IfOk result (λ x. x.0.depth ≤ room + 1) }
{
    let (inner, rest) = expression(alloc, room, Place::Plain, 8, lexemes)?;
    let rest = expect(Symbol::Close, rest)?;
    Ok((aggregate(alloc, function, inner)?, rest))
}

/// An aggregate, behind its name.
#[cycle(ladder)]
fn aggregated(
    alloc: Global,
    room: u32,
    function: Function,
    lexemes: &[Lexeme],
) -> Result<(Deep, &[Lexeme]), ParseError<'_>>
    requires { room < 100 }
    ensures reads { Gives (λ x. (x.0, x.1.now)) result (read (must (lexemes_are.is sign.Open) (λ _. spec.aggregated (spec.ladder room) function)) lexemes.now) }
    ensures deep { IfOk result (λ x. x.0.depth ≤ room + 1) }
{
    let rest = expect(Symbol::Open, lexemes)?;
    match function {
        Function::Count => match after(Symbol::Star, rest) {
            Some(rest) => count_all(rest),
            None => argument(alloc, room, Function::Count, rest),
        },
        other => argument(alloc, room, other, rest),
    }
}

#[cycle(ladder)]
fn term(
    alloc: Global,
    room: u32,
    place: Place,
    lexemes: &[Lexeme],
) -> Result<(Deep, &[Lexeme]), ParseError<'_>>
    requires { room < 100 }
    ensures reads { Gives (λ x. (x.0, x.1.now)) result (read (spec.term place (less (spec.ladder room))) lexemes.now) }
    ensures deep { IfOk result (λ x. x.0.depth ≤ room + 1) }
{
    if let Some((expr, rest)) = literal(alloc, place, lexemes)? {
        return Ok((leaf(expr), rest));
    }
    if let Some((function, rest)) = after_aggregate(place, lexemes) {
        return aggregated(alloc, room, function, rest);
    }
    if let Some((first, rest)) = column_name(alloc, lexemes)? {
        return column(alloc, first, rest);
    }
    let rest = expect(Symbol::Open, lexemes)?;
    let (inner, rest) = expression(alloc, room, within(place), 8, rest)?;
    let rest = expect(Symbol::Close, rest)?;
    Ok((bracketed(inner), rest))
}

#[cycle(ladder)]
fn signed(
    alloc: Global,
    room: u32,
    place: Place,
    lexemes: &[Lexeme],
) -> Result<(Deep, &[Lexeme]), ParseError<'_>>
    requires { room < 100 }
    ensures reads { Gives (λ x. (x.0, x.1.now)) result (read (spec.signed place (less (spec.ladder room)) (spec.term place (less (spec.ladder room)))) lexemes.now) }
    ensures deep { IfOk result (λ x. x.0.depth ≤ room + 1) }
{
    if let Some(rest) = after(Symbol::Minus, lexemes) {
        if let Some(rest) = after_least(rest) {
            return Ok((leaf(Expr::Int(i64::MIN)), rest));
        }
        let (inner, rest) = expression(alloc, room, within(place), 1, rest)?;
        return Ok((one(alloc, Op::Minus, inner)?, rest));
    }
    if let Some(rest) = after(Symbol::Plus, lexemes) {
        let (inner, rest) = expression(alloc, room, within(place), 1, rest)?;
        return Ok((one(alloc, Op::Plus, inner)?, rest));
    }
    term(alloc, room, place, lexemes)
}

#[cycle(ladder)]
fn negation(
    alloc: Global,
    room: u32,
    place: Place,
    lexemes: &[Lexeme],
) -> Result<(Deep, &[Lexeme]), ParseError<'_>>
    requires { room < 100 }
    ensures reads { Gives (λ x. (x.0, x.1.now)) result (read (spec.negation place (less (spec.ladder room)) (spec.ladder (room + 1) place 5)) lexemes.now) }
    ensures deep { IfOk result (λ x. x.0.depth ≤ room + 1) }
{
    match after(Symbol::Not, lexemes) {
        Some(rest) => {
            let (inner, rest) = expression(alloc, room, within(place), 6, rest)?;
            Ok((one(alloc, Op::Not, inner)?, rest))
        }
        None => expression(alloc, room + 1, place, 5, lexemes),
    }
}

/// What a link makes of the operand before it.
#[cycle(ladder)]
fn linked(
    alloc: Global,
    room: u32,
    place: Place,
    level: u8,
    left: Deep,
    link: Link,
    lexemes: &[Lexeme],
) -> Result<(Deep, &[Lexeme]), ParseError<'_>>
    requires room { room < 100 }
    requires level { level ≤ 7 }
    requires deep { left.depth ≤ room }
    ensures reads { Gives (λ x. (x.0, x.1.now)) result (read (spec.linked level (spec.ladder room (spec.within place) level) left link) lexemes.now) }
    ensures deep { IfOk result (λ x. x.0.depth ≤ room + 1) }
    ensures deeper { IfOk result (λ x. left.depth < x.0.depth) }
{
    match link {
        Link::Is => null_test(alloc, left, lexemes),
        Link::Two(op) => {
            let (right, rest) = expression(alloc, room, within(place), level, lexemes)?;
            Ok((two(alloc, op, left, right)?, rest))
        }
    }
}

/// Operands of this level from the left, with the operators of the next one between.
#[cycle(ladder)]
fn binary(
    alloc: Global,
    room: u32,
    place: Place,
    level: u8,
    lexemes: &[Lexeme],
) -> Result<(Deep, &[Lexeme]), ParseError<'_>>
    requires room { room < 100 }
    requires level { level ≤ 7 }
    ensures reads { Gives (λ x. (x.0, x.1.now)) result (read (spec.binary (room + 1) place (less (spec.ladder room)) level (spec.ladder (room + 1) place level)) lexemes.now) }
    ensures deep { IfOk result (λ x. x.0.depth ≤ room + 1) }
{
    let (mut left, mut rest) = expression(alloc, room + 1, place, level, lexemes)?;
    while let Some((link, more)) = link_at(room + 1, level + 1, &left, rest) {
        (left, rest) = linked(alloc, room, place, level, left, link, more)?;
    }
    Ok((left, rest))
}

/// An expression at this place.
#[tactic(auto, unfolding(sql_grammar::specs::Expr::value))]
pub fn value(
    alloc: Global,
    place: Place,
    lexemes: &[Lexeme],
) -> Result<(Expr, &[Lexeme]), ParseError<'_>>
    ensures { Gives (λ x. (x.0, x.1.now)) result (read (spec.value place) lexemes.now) }
{
    let (deep, rest) = expression(alloc, MAX_DEPTH, place, 8, lexemes)?;
    Ok((deep.expr, rest))
}
