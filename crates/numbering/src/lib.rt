// An operator by its number (000, appendix B.3).
#![tactic(auto)]

ghost use Rattle.std.specs.Prelude.{◌≡◌};
ghost use Rattle.machine.specs.Operators.{op_of, body_op_of};

use machine::{ArithOp, BodyOp, CallOp, FrameOp, Op, StackOp, TestOp, VectorOp};

// A new number goes last, as in the table `operators` of `machine`: the proof of `_` goes by its order.
pub fn op_of(number: u16) -> Op
    ensures { result ≡ op_of number }
{
    match number {
        17 => Op::OnVectors(VectorOp::Get),
        282 => Op::OnVectors(VectorOp::MakeVecLu),
        283 => Op::OnVectors(VectorOp::MakeVec),
        285 => Op::OnVectors(VectorOp::Shape),
        20 => Op::OnFrame(FrameOp::Fget),
        21 => Op::OnFrame(FrameOp::Fset),
        231 => Op::Calls(CallOp::Do),
        232 => Op::Calls(CallOp::DoSave),
        233 => Op::Calls(CallOp::DoSaveAll),
        180 => Op::OnStack(StackOp::Pop),
        183 => Op::OnStack(StackOp::Copy),
        181 => Op::OnStack(StackOp::Dup),
        184 => Op::OnStack(StackOp::Roll),
        185 => Op::OnStack(StackOp::Exch),
        186 => Op::OnStack(StackOp::Mark),
        187 => Op::OnStack(StackOp::Unmark),
        192 => Op::OnStack(StackOp::Unmark0),
        188 => Op::OnStack(StackOp::Count),
        1 => Op::OnStack(StackOp::Nop),
        600 => Op::OnStack(StackOp::Error),
        205 => Op::Tests(TestOp::Eq),
        208 => Op::Tests(TestOp::Gt),
        207 => Op::Tests(TestOp::Ge),
        202 => Op::Tests(TestOp::And),
        213 => Op::Tests(TestOp::Or),
        212 => Op::Tests(TestOp::Not),
        220 => Op::Tests(TestOp::TypeOf),
        201 => Op::Reckons(ArithOp::Add),
        214 => Op::Reckons(ArithOp::Sub),
        211 => Op::Reckons(ArithOp::Neg),
        200 => Op::Reckons(ArithOp::Abs),
        206 => Op::Reckons(ArithOp::Floor),
        203 => Op::Reckons(ArithOp::Ceiling),
        215 => Op::Reckons(ArithOp::Trunc),
        217 => Op::Reckons(ArithOp::Round),
        210 => Op::Reckons(ArithOp::Mul),
        204 => Op::Reckons(ArithOp::Div),
        209 => Op::Reckons(ArithOp::Mod),
        216 => Op::Reckons(ArithOp::Rem),
        _ => Op::Unknown,
    }
}

// An operator that holds a body.
pub fn body_op_of(number: u16) -> BodyOp
    ensures { result ≡ body_op_of number }
{
    match number {
        114 => BodyOp::MakeSimpleCo,
        120 => BodyOp::DoSaveSimpleBody,
        239 => BodyOp::If,
        241 => BodyOp::IfElse,
        _ => BodyOp::PassOver,
    }
}
