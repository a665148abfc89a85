ghost use Rattle.std.specs.Prelude.{◌≡◌, ◌≤◌};
ghost use Rattle.unit_vm.specs.Instructions.{flow_of, takes, leaves, slots_of, is_stored, is_type, is_argued, fits_role};
ghost use Rattle.model_rules.specs.Limits.{input_limit, local_limit, state_limit};

use crate::program::{Role, Sizes};
use fixed_words::Ty;
use model_rules::MOST_TURNS;

/// An instruction of the stack machine. It pops its operands from the stack of words; the last operand is the top.
#[derive(Clone, Copy, Debug, PartialEq, Eq)]
pub enum Instruction {
    /// Pushes the word.
    Push(i64),
    /// Pushes the slot's word.
    Load(u32),
    /// Pops a word and writes it to the slot. [`fixed_words::Fault::Range`] where it is not of the type.
    Store { slot: u32, ty: Ty },
    Add,
    Subtract,
    Multiply,
    Divide,
    Remainder,
    Negate,
    Magnitude,
    Min,
    Max,
    /// Pops a word, a low and a high bound, and pushes the word within the bounds.
    Clamp,
    Equal,
    NotEqual,
    Less,
    LessOrEqual,
    Greater,
    GreaterOrEqual,
    And,
    Or,
    Not,
    /// `*` of fixed-point words with so many decimals.
    FixedMultiply(u8),
    /// `/` of fixed-point words with so many decimals.
    FixedDivide(u8),
    /// Adds so many decimals to the word.
    ScaleUp(u8),
    /// Removes so many decimals from the word.
    ScaleDown(u8),
    /// Jumps so many instructions ahead.
    Jump(u32),
    /// Pops a word. Jumps so many instructions ahead where it is 0, and otherwise goes to the next one.
    JumpFalse(u32),
    /// Begins a loop of so many turns.
    Loop(u32),
    /// Ends a turn: jumps so many instructions back for the next turn, or goes on after the last.
    Next(u32),
    /// Pops the accepted length. [`fixed_words::Fault::Accept`] where it is negative or above the step's length.
    Accept,
    /// Pops an output and ends the run. [`fixed_words::Fault::Range`] where it is not of the type.
    Give(Ty),
    /// Pops a limit and ends the run. [`fixed_words::Fault::Max`] where it is negative.
    Limit,
    /// Ends the run.
    Done,
}

/// Where an instruction leads.
#[derive(Clone, Copy, Debug)]
pub enum Flow {
    /// To the next one.
    On,
    /// So many ahead.
    Ahead(u32),
    /// To the next one or so many ahead.
    Branch(u32),
    /// To the next one, which is the first of a loop of so many turns.
    Open(u32),
    /// So many back, or to the next one.
    Back(u32),
    /// Nowhere: the run ends.
    End,
}

impl Instruction {
    /// Returns where it leads.
    pub fn flow(self) -> Flow
        ensures { result ≡ flow_of self }
    {
        match self {
            Instruction::Jump(distance) => Flow::Ahead(distance),
            Instruction::JumpFalse(distance) => Flow::Branch(distance),
            Instruction::Loop(count) => Flow::Open(count),
            Instruction::Next(distance) => Flow::Back(distance),
            Instruction::Give(_) | Instruction::Limit | Instruction::Done => Flow::End,
            _ => Flow::On,
        }
    }

    /// Returns how many words it pops.
    pub fn takes(self) -> u32
        ensures { result ≡ takes self }
    {
        match self {
            Instruction::Push(_)
            | Instruction::Load(_)
            | Instruction::Jump(_)
            | Instruction::Loop(_)
            | Instruction::Next(_)
            | Instruction::Done => 0,
            Instruction::Store { .. }
            | Instruction::Negate
            | Instruction::Magnitude
            | Instruction::Not
            | Instruction::ScaleUp(_)
            | Instruction::ScaleDown(_)
            | Instruction::JumpFalse(_)
            | Instruction::Accept
            | Instruction::Give(_)
            | Instruction::Limit => 1,
            Instruction::Clamp => 3,
            _ => 2,
        }
    }

    /// Returns how many words it pushes after that.
    pub fn leaves(self) -> u32
        ensures { result ≡ leaves self }
    {
        match self {
            Instruction::Store { .. }
            | Instruction::Jump(_)
            | Instruction::JumpFalse(_)
            | Instruction::Loop(_)
            | Instruction::Next(_)
            | Instruction::Accept
            | Instruction::Give(_)
            | Instruction::Limit
            | Instruction::Done => 0,
            _ => 1,
        }
    }

    /// Returns whether the table of operations allows its argument, and the slot that it uses exists.
    pub(crate) fn is_argued(self, sizes: Sizes) -> bool
        requires states { sizes.states ≤ state_limit }
        requires inputs { sizes.inputs ≤ input_limit }
        requires locals { sizes.locals ≤ local_limit }
        ensures { result ≡ is_argued sizes self }
    {
        match self {
            Instruction::Load(slot) => slot < sizes.slots(),
            Instruction::Store { slot, ty } => sizes.is_stored(slot) && is_known(ty),
            Instruction::FixedMultiply(decimals) | Instruction::FixedDivide(decimals) => decimals
                <= 9,
            Instruction::ScaleUp(decimals) | Instruction::ScaleDown(decimals) => decimals <= 9,
            Instruction::Jump(distance) | Instruction::JumpFalse(distance) => 1 <= distance,
            Instruction::Loop(count) => 1 <= count && count <= MOST_TURNS,
            Instruction::Give(ty) => is_known(ty),
            _ => true,
        }
    }

    /// Returns whether a part for this use may have the instruction.
    pub(crate) fn fits(self, role: Role) -> bool
        ensures { result ≡ fits_role role self }
    {
        match (role, self) {
            (Role::Output, Instruction::Limit | Instruction::Done) => false,
            (Role::Limit, Instruction::Give(_) | Instruction::Done) => false,
            (Role::Step, Instruction::Give(_) | Instruction::Limit) => false,
            _ => true,
        }
    }
}

/// Returns whether the type exists: a fixed-point type has at most 9 decimals.
fn is_known(ty: Ty) -> bool
    ensures { result ≡ is_type ty }
{
    match ty {
        Ty::Fixed(decimals) => decimals <= 9,
        _ => true,
    }
}
