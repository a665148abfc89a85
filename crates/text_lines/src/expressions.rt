//! Reading of an expression: its first operand, and then its infix operations in turn.
ghost use Rattle.std.specs.Prelude.{◌≡◌};
ghost use Rattle.text_tokens.specs.Scanning.{Gives, GivesWithRest, ReadsAs};
ghost use Rattle.text_lines.specs.Expressions.{GivesExpression, GivesInfix, GivesRest, WritesOneTree, ExpressionIs, after_symbol, after_then, after_else, name_at, decimals_at, grouped_at, call_at, fix_at, prefix_at, pair_at, clamp_at, choice_at, present_at, keyword_operand, operand_at, infix_of, infix_at, climb, read, deeper, read_expression};
ghost use Rattle.unit_tree.specs.Levels.{grammar_level};

use fixed_words::{Boxed, List};
use model_rules::{DEEPEST_WRITING, MOST_DECIMALS};
use std::alloc::Global;
use text_tokens::Unread;
use unit_tree::levels::{Level, allows, binary_level, left_level, right_level, unary_level};
use unit_tree::{BinOp, Expr, Keyword, Name, Symbol, Token, UnOp};

/// The first number that does not fit a word of 64 bits.
const WORD_END: u64 = 1 << 63;

pub(crate) fn after_symbol(symbol: Symbol, tokens: &[Token]) -> Result<&[Token], Unread>
    ensures { GivesRest result (after_symbol symbol tokens.now) }
{
    match tokens {
        [Token::Symbol(found), rest @ ..] if *found == symbol => Ok(rest),
        _ => Err(Unread::NoForm),
    }
}

fn after_then(tokens: &[Token]) -> Result<&[Token], Unread>
    ensures { GivesRest result (after_then tokens.now) }
{
    match tokens {
        [Token::Keyword(Keyword::Then), rest @ ..] => Ok(rest),
        _ => Err(Unread::NoForm),
    }
}

fn after_else(tokens: &[Token]) -> Result<&[Token], Unread>
    ensures { GivesRest result (after_else tokens.now) }
{
    match tokens {
        [Token::Keyword(Keyword::Else), rest @ ..] => Ok(rest),
        _ => Err(Unread::NoForm),
    }
}

pub(crate) fn name_at(alloc: Global, tokens: &[Token]) -> Result<(Name, &[Token]), Unread>
    ensures { GivesWithRest result (name_at tokens.now) }
{
    match tokens {
        [Token::Name(name), rest @ ..] => Ok((List::from_slice(alloc, name.as_slice())?, rest)),
        _ => Err(Unread::NoForm),
    }
}

/// The number of decimals of a conversion to fixed point, and the tokens after it.
pub(crate) fn decimals_at(tokens: &[Token]) -> Result<(u8, &[Token]), Unread>
    ensures { GivesWithRest result (decimals_at tokens.now) }
{
    match tokens {
        [Token::Number { digits, decimals }, rest @ ..]
            if *decimals == 0 && *digits <= u64::from(MOST_DECIMALS) => {
            Ok((*digits as u8, rest))
        }
        _ => Err(Unread::NoForm),
    }
}

/// Reads a part that is one level of nesting deeper, where `budget` levels are left.
#[cycle(reading)]
fn part(
    alloc: Global,
    budget: u8,
    asked: Level,
    tokens: &[Token],
) -> Result<(Expr, Level, &[Token]), Unread>
    ensures { GivesExpression result (deeper budget (grammar_level asked) tokens.now) }
{
    match budget.checked_sub(1) {
        None => Err(Unread::NoForm),
        Some(levels_left) => read(alloc, levels_left, asked, tokens),
    }
}

/// A whole expression in parentheses.
#[cycle(reading)]
#[tactic(auto, unfolding(crate::specs::Expressions::grouped_at))]
fn grouped(alloc: Global, budget: u8, tokens: &[Token]) -> Result<(Expr, &[Token]), Unread>
    ensures { GivesWithRest result (grouped_at (deeper budget) tokens.now) }
{
    let rest = after_symbol(Symbol::Open, tokens)?;
    let (inner, _, rest) = part(alloc, budget, Level::Whole, rest)?;
    let rest = after_symbol(Symbol::Close, rest)?;
    Ok((inner, rest))
}

/// A call of one operand, after the operation's token.
#[cycle(reading)]
#[tactic(auto, unfolding(crate::specs::Expressions::call_at))]
fn call(
    alloc: Global,
    budget: u8,
    op: UnOp,
    tokens: &[Token],
) -> Result<(Expr, Level, &[Token]), Unread>
    ensures { GivesExpression result (call_at (deeper budget) op tokens.now) }
{
    let (arg, rest) = grouped(alloc, budget, tokens)?;
    let arg = Boxed::new(alloc, arg)?;
    Ok((Expr::Unary { op, arg }, Level::Primary, rest))
}

/// `N (x)`, after `fix`.
#[cycle(reading)]
#[tactic(auto, unfolding(crate::specs::Expressions::fix_at))]
fn fix(alloc: Global, budget: u8, tokens: &[Token]) -> Result<(Expr, Level, &[Token]), Unread>
    ensures { GivesExpression result (fix_at (deeper budget) tokens.now) }
{
    let (decimals, rest) = decimals_at(tokens)?;
    call(alloc, budget, UnOp::ToFix(decimals), rest)
}

/// `not x` and `-x`, after their first token.
#[cycle(reading)]
#[tactic(auto, unfolding(crate::specs::Expressions::prefix_at))]
fn prefix(
    alloc: Global,
    budget: u8,
    asked: Level,
    op: UnOp,
    tokens: &[Token],
) -> Result<(Expr, Level, &[Token]), Unread>
    ensures { GivesExpression result (prefix_at (deeper budget) (grammar_level asked) op tokens.now) }
{
    let level = unary_level(op);
    if !allows(asked, level) {
        return Err(Unread::NoForm);
    }
    let (arg, _, rest) = part(alloc, budget, level, tokens)?;
    let arg = Boxed::new(alloc, arg)?;
    Ok((Expr::Unary { op, arg }, level, rest))
}

/// A call of two operands, after the operation's token.
#[cycle(reading)]
#[tactic(auto, unfolding(crate::specs::Expressions::pair_at))]
fn pair(
    alloc: Global,
    budget: u8,
    op: BinOp,
    tokens: &[Token],
) -> Result<(Expr, Level, &[Token]), Unread>
    ensures { GivesExpression result (pair_at (deeper budget) op tokens.now) }
{
    let rest = after_symbol(Symbol::Open, tokens)?;
    let (left, _, rest) = part(alloc, budget, Level::Whole, rest)?;
    let rest = after_symbol(Symbol::Comma, rest)?;
    let (right, _, rest) = part(alloc, budget, Level::Whole, rest)?;
    let rest = after_symbol(Symbol::Close, rest)?;
    let left = Boxed::new(alloc, left)?;
    let right = Boxed::new(alloc, right)?;
    Ok((Expr::Binary { op, left, right }, Level::Primary, rest))
}

/// `(value, low, high)`, after `clamp`.
#[cycle(reading)]
#[tactic(auto, unfolding(crate::specs::Expressions::clamp_at))]
fn clamp(alloc: Global, budget: u8, tokens: &[Token]) -> Result<(Expr, Level, &[Token]), Unread>
    ensures { GivesExpression result (clamp_at (deeper budget) tokens.now) }
{
    let rest = after_symbol(Symbol::Open, tokens)?;
    let (value, _, rest) = part(alloc, budget, Level::Whole, rest)?;
    let value = Boxed::new(alloc, value)?;
    let rest = after_symbol(Symbol::Comma, rest)?;
    let (low, _, rest) = part(alloc, budget, Level::Whole, rest)?;
    let low = Boxed::new(alloc, low)?;
    let rest = after_symbol(Symbol::Comma, rest)?;
    let (high, _, rest) = part(alloc, budget, Level::Whole, rest)?;
    let high = Boxed::new(alloc, high)?;
    let rest = after_symbol(Symbol::Close, rest)?;
    Ok((Expr::Clamp { value, low, high }, Level::Primary, rest))
}

/// `cond then yes else no`, after `if`.
#[cycle(reading)]
#[tactic(auto, unfolding(crate::specs::Expressions::choice_at))]
fn choice(alloc: Global, budget: u8, tokens: &[Token]) -> Result<(Expr, Level, &[Token]), Unread>
    ensures { GivesExpression result (choice_at (deeper budget) tokens.now) }
{
    let (cond, _, rest) = part(alloc, budget, Level::Whole, tokens)?;
    let cond = Boxed::new(alloc, cond)?;
    let rest = after_then(rest)?;
    let (yes, _, rest) = part(alloc, budget, Level::Whole, rest)?;
    let yes = Boxed::new(alloc, yes)?;
    let rest = after_else(rest)?;
    let (no, _, rest) = part(alloc, budget, Level::Whole, rest)?;
    let no = Boxed::new(alloc, no)?;
    Ok((Expr::Choose { cond, yes, no }, Level::Whole, rest))
}

/// `(u)`, after `present`.
#[tactic(auto, unfolding(crate::specs::Expressions::present_at))]
fn present(alloc: Global, tokens: &[Token]) -> Result<(Expr, Level, &[Token]), Unread>
    ensures { GivesExpression result (present_at tokens.now) }
{
    let rest = after_symbol(Symbol::Open, tokens)?;
    let (event, rest) = name_at(alloc, rest)?;
    let rest = after_symbol(Symbol::Close, rest)?;
    Ok((Expr::Present(event), Level::Primary, rest))
}

/// An operand that begins with a keyword, from the tokens after it.
#[cycle(reading)]
fn keyword_operand(
    alloc: Global,
    budget: u8,
    asked: Level,
    keyword: Keyword,
    rest: &[Token],
) -> Result<(Expr, Level, &[Token]), Unread>
    ensures { GivesExpression result (keyword_operand (deeper budget) (grammar_level asked) keyword rest.now) }
{
    match keyword {
        Keyword::True => Ok((Expr::Truth(true), Level::Primary, rest)),
        Keyword::False => Ok((Expr::Truth(false), Level::Primary, rest)),
        Keyword::Time => Ok((Expr::Time, Level::Primary, rest)),
        Keyword::Length => Ok((Expr::Step, Level::Primary, rest)),
        Keyword::Absent => Ok((Expr::Absent, Level::Primary, rest)),
        Keyword::Present => present(alloc, rest),
        Keyword::Not => prefix(alloc, budget, asked, UnOp::Not, rest),
        Keyword::Abs => call(alloc, budget, UnOp::Abs, rest),
        Keyword::Int => call(alloc, budget, UnOp::ToInt, rest),
        Keyword::Fix => fix(alloc, budget, rest),
        Keyword::Min => pair(alloc, budget, BinOp::Min, rest),
        Keyword::Max => pair(alloc, budget, BinOp::Max, rest),
        Keyword::Clamp => clamp(alloc, budget, rest),
        Keyword::If if allows(asked, Level::Whole) => choice(alloc, budget, rest),
        _ => Err(Unread::NoForm),
    }
}

/// An expression up to the first infix operation outside it.
#[cycle(reading)]
#[tactic(auto, unfolding(crate::specs::Expressions::operand_at))]
fn operand(
    alloc: Global,
    budget: u8,
    asked: Level,
    tokens: &[Token],
) -> Result<(Expr, Level, &[Token]), Unread>
    ensures { GivesExpression result (operand_at (deeper budget) (grammar_level asked) tokens.now) }
{
    match tokens {
        [Token::Number { digits, decimals }, rest @ ..]
            if *digits < WORD_END && *decimals <= MOST_DECIMALS => {
            let word = *digits as i64;
            let decimals = *decimals;
            Ok((Expr::Number { word, decimals }, Level::Primary, rest))
        }
        [Token::Name(name), rest @ ..] => {
            let name = List::from_slice(alloc, name.as_slice())?;
            Ok((Expr::Var(name), Level::Primary, rest))
        }
        [Token::Keyword(keyword), rest @ ..] => {
            keyword_operand(alloc, budget, asked, *keyword, rest)
        }
        [Token::Symbol(Symbol::Minus), rest @ ..] => {
            prefix(alloc, budget, asked, UnOp::Neg, rest)
        }
        [Token::Symbol(Symbol::Open), ..] => {
            let (inner, rest) = grouped(alloc, budget, tokens)?;
            Ok((inner, Level::Primary, rest))
        }
        _ => Err(Unread::NoForm),
    }
}

/// The infix operation of the token.
fn infix_of(token: &Token) -> Option<BinOp>
    ensures { result ≡ infix_of token.now }
{
    match token {
        Token::Symbol(Symbol::Plus) => Some(BinOp::Add),
        Token::Symbol(Symbol::Minus) => Some(BinOp::Sub),
        Token::Symbol(Symbol::Star) => Some(BinOp::Mul),
        Token::Symbol(Symbol::Slash) => Some(BinOp::Slash),
        Token::Symbol(Symbol::Equals) => Some(BinOp::Eq),
        Token::Symbol(Symbol::Differs) => Some(BinOp::Ne),
        Token::Symbol(Symbol::Less) => Some(BinOp::Lt),
        Token::Symbol(Symbol::AtMost) => Some(BinOp::Le),
        Token::Symbol(Symbol::Greater) => Some(BinOp::Gt),
        Token::Symbol(Symbol::AtLeast) => Some(BinOp::Ge),
        Token::Keyword(Keyword::Div) => Some(BinOp::Div),
        Token::Keyword(Keyword::Mod) => Some(BinOp::Mod),
        Token::Keyword(Keyword::And) => Some(BinOp::And),
        Token::Keyword(Keyword::Or) => Some(BinOp::Or),
        _ => None,
    }
}

/// The infix operation that comes first, after a left side of level `left`, where the grammar requires level
/// `asked`.
fn infix_at(asked: Level, left: Level, tokens: &[Token]) -> Option<(BinOp, &[Token])>
    ensures { GivesInfix result (infix_at (grammar_level asked) (grammar_level left) tokens.now) }
{
    let [first, rest @ ..] = tokens else {
        return None;
    };
    let op = infix_of(first)?;
    let level = binary_level(op);
    if allows(asked, level) && allows(left_level(level), left) {
        Some((op, rest))
    } else {
        None
    }
}

/// A left side with the infix operations after it, where the grammar requires level `asked`.
#[cycle(reading)]
#[tactic(auto, using(crate::proofs::InfixOperations::infix_at_rises))]
fn climb(
    alloc: Global,
    budget: u8,
    asked: Level,
    left: Expr,
    left_level: Level,
    behind: &[Token],
) -> Result<(Expr, Level, &[Token]), Unread>
    ensures { GivesExpression result (climb (read budget) (grammar_level asked) behind.now (left, grammar_level left_level, behind.now)) }
{
    let mut tree = left;
    let mut level = left_level;
    let mut rest = behind;
    for _ in behind {
        let Some((op, behind)) = infix_at(asked, level, rest) else {
            return Ok((tree, level, rest));
        };
        let (right, _, behind) = read(alloc, budget, right_level(binary_level(op)), behind)?;
        let left = Boxed::new(alloc, tree)?;
        let right = Boxed::new(alloc, right)?;
        tree = Expr::Binary { op, left, right };
        level = binary_level(op);
        rest = behind;
    }
    Ok((tree, level, rest))
}

/// An expression where the grammar requires level `asked`, whose parts are nested at most `budget` levels deep, and
/// the tokens after it.
#[cycle(reading)]
#[tactic(auto, using(crate::proofs::InfixOperations::read_step))]
fn read(
    alloc: Global,
    budget: u8,
    asked: Level,
    tokens: &[Token],
) -> Result<(Expr, Level, &[Token]), Unread>
    ensures { GivesExpression result (read budget (grammar_level asked) tokens.now) }
{
    let (left, level, rest) = operand(alloc, budget, asked, tokens)?;
    climb(alloc, budget, asked, left, level, rest)
}

/// An expression with no token after it.
#[tactic(auto, unfolding(crate::specs::Expressions::read_expression))]
pub(crate) fn whole_expression(alloc: Global, tokens: &[Token]) -> Result<Expr, Unread>
    ensures { Gives result (read_expression tokens.now) }
{
    let (tree, _, rest) = read(alloc, DEEPEST_WRITING, Level::Whole, tokens)?;
    match rest {
        [] => Ok(tree),
        _ => Err(Unread::NoForm),
    }
}

/// The expression that the tokens write. [`Unread::NoForm`] where they write none.
pub fn expression(alloc: Global, tokens: &[Token]) -> Result<Expr, Unread>
    ensures { ReadsAs result (ExpressionIs tokens.now) }
{
    whole_expression(alloc, tokens)
}

/// A law: tokens write at most one expression.
pub fn tokens_write_one_expression()
    ensures { WritesOneTree }
{}
