//! Code of expressions.
ghost use Rattle.std.specs.Prelude.{◌≡◌, ◌++◌, ◌∷◌, [], IfOk};
ghost use Rattle.std.specs.Option.{option_to_list};
ghost use Rattle.code_units.specs.Expressions.{code_of, name_code, truth_code, place_code, unary_code, unary_kind_of, binary_code, binary_kind_of};
ghost use Rattle.code_units.specs.Scopes.{named};
ghost use Rattle.code_pieces.specs.Pieces.{flat, choice_code};
ghost use Rattle.unit_tree.specs.Values.{kind_of_number};
ghost use Rattle.unit_vm.specs.declared.instruction.Instruction.TheVariants.{Clamp};

use crate::scope::{CodeScope, NamePlace};
use code_pieces::{choice, joined};
use fixed_words::{Kind, List, NoMemory, Ty};
use std::alloc::Global;
use unit_tree::{BinOp, Expr, UnOp, kind_of_number};
use unit_vm::Instruction;

/// Code that pushes a value, and the value's kind.
#[derive(Debug, Drop)]
pub(crate) struct ValueCode {
    pub(crate) code: List<Instruction>,
    pub(crate) kind: Kind,
}

impl ValueCode {
    /// Returns the code alone.
    pub(crate) fn into_code(self) -> List<Instruction>
        ensures { result ≡ self.code }
    {
        self.code
    }
}

fn truth(told: bool) -> Instruction
    ensures { result ≡ truth_code told }
{
    if told {
        Instruction::Push(1)
    } else {
        Instruction::Push(0)
    }
}

fn placed(place: NamePlace) -> Instruction
    ensures { result ≡ place_code place }
{
    match place {
        NamePlace::Constant(word) => Instruction::Push(word),
        NamePlace::Slot(slot) => Instruction::Load(slot),
    }
}

/// Returns the code of one instruction.
fn leaf(alloc: Global, instruction: Instruction, kind: Kind) -> Result<ValueCode, NoMemory>
    ensures code { IfOk result (λ value. value.code ≡ instruction ∷ []) }
    ensures kind { IfOk result (λ value. value.kind ≡ kind) }
{
    let mut code = List::new(alloc);
    code.push(instruction)?;
    Ok(ValueCode { code, kind })
}

/// Returns the instruction of an operation on a word of the kind, where it needs one.
fn unary_instruction(op: UnOp, kind: Kind) -> Option<Instruction>
    ensures { result ≡ unary_code op kind }
{
    match (op, kind) {
        (UnOp::Neg, _) => Some(Instruction::Negate),
        (UnOp::Not, _) => Some(Instruction::Not),
        (UnOp::Abs, _) => Some(Instruction::Magnitude),
        (UnOp::ToInt, Kind::Fixed(had)) => Some(Instruction::ScaleDown(had)),
        (UnOp::ToInt, _) => None,
        (UnOp::ToFix(decimals), Kind::Fixed(had)) => {
            if had <= decimals {
                Some(Instruction::ScaleUp(decimals - had))
            } else {
                Some(Instruction::ScaleDown(had - decimals))
            }
        }
        (UnOp::ToFix(decimals), _) => Some(Instruction::ScaleUp(decimals)),
    }
}

fn unary_kind(op: UnOp, kind: Kind) -> Kind
    ensures { result ≡ unary_kind_of op kind }
{
    match op {
        UnOp::Not => Kind::Bool,
        UnOp::ToInt => Kind::Int,
        UnOp::ToFix(decimals) => Kind::Fixed(decimals),
        _ => kind,
    }
}

/// Returns the instruction of an operation on two words, the first of the kind.
fn binary_instruction(op: BinOp, kind: Kind) -> Instruction
    ensures { result ≡ binary_code op kind }
{
    match (op, kind) {
        (BinOp::Add, _) => Instruction::Add,
        (BinOp::Sub, _) => Instruction::Subtract,
        (BinOp::Mul, Kind::Fixed(decimals)) => Instruction::FixedMultiply(decimals),
        (BinOp::Mul, _) => Instruction::Multiply,
        (BinOp::Slash, Kind::Fixed(decimals)) => Instruction::FixedDivide(decimals),
        (BinOp::Slash, _) => Instruction::Divide,
        (BinOp::Div, _) => Instruction::Divide,
        (BinOp::Mod, _) => Instruction::Remainder,
        (BinOp::Eq, _) => Instruction::Equal,
        (BinOp::Ne, _) => Instruction::NotEqual,
        (BinOp::Lt, _) => Instruction::Less,
        (BinOp::Le, _) => Instruction::LessOrEqual,
        (BinOp::Gt, _) => Instruction::Greater,
        (BinOp::Ge, _) => Instruction::GreaterOrEqual,
        (BinOp::And, _) => Instruction::And,
        (BinOp::Or, _) => Instruction::Or,
        (BinOp::Min, _) => Instruction::Min,
        (BinOp::Max, _) => Instruction::Max,
    }
}

fn binary_kind(op: BinOp, kind: Kind) -> Kind
    ensures { result ≡ binary_kind_of op kind }
{
    match op {
        BinOp::Eq
        | BinOp::Ne
        | BinOp::Lt
        | BinOp::Le
        | BinOp::Gt
        | BinOp::Ge
        | BinOp::And
        | BinOp::Or => Kind::Bool,
        _ => kind,
    }
}

/// Returns the code of an operation: its operand, then its instruction.
fn unary(op: UnOp, arg: ValueCode) -> Result<ValueCode, NoMemory>
    ensures code { IfOk result (λ value. value.code ≡ arg.code ++ option_to_list (unary_code op arg.kind)) }
    ensures kind { IfOk result (λ value. value.kind ≡ unary_kind_of op arg.kind) }
{
    let kind = unary_kind(op, arg.kind);
    let instruction = unary_instruction(op, arg.kind);
    let mut code = arg.code;
    if let Some(instruction) = instruction {
        code.push(instruction)?;
    }
    Ok(ValueCode { code, kind })
}

/// Returns the code of an operation: its two operands, then its instruction.
fn binary(op: BinOp, left: ValueCode, right: ValueCode) -> Result<ValueCode, NoMemory>
    ensures code { IfOk result (λ value. value.code ≡ left.code ++ (right.code ++ (binary_code op left.kind ∷ []))) }
    ensures kind { IfOk result (λ value. value.kind ≡ binary_kind_of op left.kind) }
{
    let kind = binary_kind(op, left.kind);
    let instruction = binary_instruction(op, left.kind);
    let mut rest = right.code;
    rest.push(instruction)?;
    Ok(ValueCode {
        code: joined(left.code, rest)?,
        kind,
    })
}

/// Returns the code of `clamp`: its three operands, then its instruction.
fn clamp(value: ValueCode, low: ValueCode, high: ValueCode) -> Result<ValueCode, NoMemory>
    ensures code { IfOk result (λ all. all.code ≡ value.code ++ (low.code ++ (high.code ++ (Clamp ∷ [])))) }
    ensures kind { IfOk result (λ all. all.kind ≡ value.kind) }
{
    let kind = value.kind;
    let mut rest = high.code;
    rest.push(Instruction::Clamp)?;
    let bounds = joined(low.code, rest)?;
    Ok(ValueCode {
        code: joined(value.code, bounds)?,
        kind,
    })
}

/// Returns the code of a choice: its condition, then both sides.
fn chosen(
    alloc: Global,
    cond: ValueCode,
    yes: ValueCode,
    no: ValueCode,
) -> Result<ValueCode, NoMemory>
    ensures code { IfOk result (λ all. all.code ≡ cond.code ++ choice_code yes.code no.code) }
    ensures kind { IfOk result (λ all. all.kind ≡ yes.kind) }
{
    let kind = yes.kind;
    let branches = choice(alloc, yes.code, no.code)?;
    Ok(ValueCode {
        code: joined(cond.code, branches)?,
        kind,
    })
}

/// Returns the code of a name: a push of its word or a load of its slot. A name that is not declared has the word 0.
fn name_value(alloc: Global, scope: &CodeScope, name: &[u8]) -> Result<ValueCode, NoMemory>
    ensures code { IfOk result (λ value. value.code ≡ flat (name_code (named scope.now.names name.now)).piece) }
    ensures kind { IfOk result (λ value. value.kind ≡ (name_code (named scope.now.names name.now)).kind) }
{
    match scope.named(name) {
        Some(found) => leaf(alloc, placed(found.place), found.ty.kind()),
        None => leaf(alloc, Instruction::Push(0), Kind::Int),
    }
}

/// Returns the code of an expression. An expression about events has the code of the word that it has in the plain form.
pub(crate) fn value_code(
    alloc: Global,
    scope: &CodeScope,
    value: &Expr,
) -> Result<ValueCode, NoMemory>
    ensures code { IfOk result (λ all. all.code ≡ flat (code_of value.now scope.now).piece) }
    ensures kind { IfOk result (λ all. all.kind ≡ (code_of value.now scope.now).kind) }
{
    match value {
        Expr::Number { word, decimals } => {
            leaf(alloc, Instruction::Push(*word), kind_of_number(*decimals))
        }
        Expr::Truth(told) => leaf(alloc, truth(*told), Kind::Bool),
        Expr::Var(name) => name_value(alloc, scope, name.as_slice()),
        Expr::Time => leaf(alloc, Instruction::Load(scope.time), Kind::Int),
        Expr::Step => leaf(alloc, Instruction::Load(scope.step), Kind::Int),
        Expr::Unary { op, arg } => unary(*op, value_code(alloc, scope, arg.get())?),
        Expr::Binary { op, left, right } => {
            let left = value_code(alloc, scope, left.get())?;
            let right = value_code(alloc, scope, right.get())?;
            binary(*op, left, right)
        }
        Expr::Clamp { value, low, high } => {
            let value = value_code(alloc, scope, value.get())?;
            let low = value_code(alloc, scope, low.get())?;
            let high = value_code(alloc, scope, high.get())?;
            clamp(value, low, high)
        }
        Expr::Choose { cond, yes, no } => {
            let cond = value_code(alloc, scope, cond.get())?;
            let yes = value_code(alloc, scope, yes.get())?;
            let no = value_code(alloc, scope, no.get())?;
            chosen(alloc, cond, yes, no)
        }
        Expr::Absent => leaf(alloc, Instruction::Push(0), Kind::Int),
        Expr::Present(_) => leaf(alloc, truth(false), Kind::Bool),
    }
}
