// The machine of document 01 as it is defined: this crate has the definitions (specs/), the theorems on them (proofs/Theorems.antt) and
// the types that definitions and code share. The code stands in the crates above.
#![tactic(auto)]

// What an operator's number is to the skeleton: a literal by itself, one that holds a body, the end of a body, or not allowed in one.
#[derive(Clone, Copy)]
pub enum Role {
    Plain,
    Holds,
    Closes,
    Barred,
}

// How reading a literal ended, where it was not refused: past it, or past the `}` that stood in its place.
#[derive(Clone, Copy)]
pub enum Passed {
    On { next: usize },
    Closed { next: usize },
}

// A value on the stack, in a frame or in a cell.
#[derive(Clone, Copy)]
pub enum Value {
    Number(numbers::Number),
    Identifier {
        origin: u32,
        start: u32,
        len: u32,
    },
    Vector {
        first: u32,
        lower: u32,
        count: u32,
    },
    Operator {
        origin: u32,
        start: u32,
        len: u32,
        first: u32,
    },
}

// A literal of a body. Starts count from just after the `{` of the body that the engine runs: of a name and a text to the token, of a
// held body to just after its own `{`.
#[derive(Clone, Copy)]
pub enum Literal {
    Figure(numbers::Number),
    Name { start: u32, len: u32 },
    Text { start: u32 },
    Plain { number: u16 },
    WithBody { number: u16, start: u32, len: u32 },
}

// 2.4.3
#[derive(Clone, Copy)]
pub enum VectorOp {
    Get,
    MakeVecLu,
    MakeVec,
    Shape,
}

// 2.4.4
#[derive(Clone, Copy)]
pub enum FrameOp {
    Fget,
    Fset,
}

// 2.4.5
#[derive(Clone, Copy)]
pub enum CallOp {
    Do,
    DoSave,
    DoSaveAll,
}

// 2.4.6
#[derive(Clone, Copy)]
pub enum StackOp {
    Pop,
    Copy,
    Dup,
    Roll,
    Exch,
    Mark,
    Unmark,
    Unmark0,
    Count,
    Nop,
    Error,
}

// 2.4.8
#[derive(Clone, Copy)]
pub enum TestOp {
    Eq,
    Gt,
    Ge,
    And,
    Or,
    Not,
    TypeOf,
}

// 2.4.9
#[derive(Clone, Copy)]
pub enum ArithOp {
    Add,
    Sub,
    Neg,
    Abs,
    Floor,
    Ceiling,
    Trunc,
    Round,
    Mul,
    Div,
    Mod,
    Rem,
}

// An operator without a body, by its family.
#[derive(Clone, Copy)]
pub enum Op {
    OnVectors(VectorOp),
    OnFrame(FrameOp),
    Calls(CallOp),
    OnStack(StackOp),
    Tests(TestOp),
    Reckons(ArithOp),
    Unknown,
}

// 2.4.5 and 2.4.7: an operator that holds a body. IFCOPY and CORRECT pass over it.
#[derive(Clone, Copy)]
pub enum BodyOp {
    MakeSimpleCo,
    DoSaveSimpleBody,
    If,
    IfElse,
    PassOver,
}

// What the engine does with the values above the topmost mark; it reads frame, cells and code besides.
#[derive(Clone, Copy)]
pub enum Work {
    Nothing,
    Fetch { j: u32 },
    Element { cell: u32 },
    Build { lower: u32, count: u32 },
    Spell { start: u32 },
    Utter { start: u32, len: u32 },
    Compose { start: u32, len: u32 },
    Repeat { count: u32 },
    Turn { depth: u32, first: u32 },
    Match(Value, Value),
    Report(Value),
}

// The engine's part of an operator: the values above the mark, a body to enter, the running frame, or a mark.
#[derive(Clone, Copy)]
pub enum Next {
    Works(Work),
    Inline {
        start: u32,
        len: u32,
        owes: bool,
    },
    Call {
        origin: u32,
        start: u32,
        len: u32,
        first: u32,
    },
    Store {
        j: u32,
    },
    Place {
        count: u32,
    },
    Remove {
        count: u32,
    },
    Tally,
}

// What an operator makes of the values that it pops: one number or two (the second on top), or a part for the engine. `None` is the master error.
#[derive(Clone, Copy)]
pub enum Effect {
    Gives(numbers::Number),
    Gives2(numbers::Number, numbers::Number),
    Acts(Next),
}
