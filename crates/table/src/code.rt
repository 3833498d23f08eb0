// The codes that have a reply, and the table of commands by them: how wide the operands are, and the reply.

ghost use Rattle.std.specs.Prelude.{◌≡◌, ◌+◌, ◌≤◌, MatchResult};
ghost use Rattle.table.specs.Codes.{code_byte, HasNoCode};
ghost use Rattle.table.specs.Table.{operand_width, answer_width};

#[derive(Clone, Copy, Debug, PartialEq, Eq)]
pub enum Code {
    Precision,
    Allowance,
    Arc,
    ConeInEqr,
    ConeInPc,
    Parallel,
    TwoArcs,
}

// A byte that is none of them.
#[derive(Clone, Copy, Debug, PartialEq, Eq)]
pub struct NoCode;

impl From<Code> for u8 {
    ghost from_gives = { λ code byte. byte ≡ code_byte code };

    fn from(code: Code) -> u8 {
        match code {
            Code::Precision => 1,
            Code::Allowance => 2,
            Code::Arc => 3,
            Code::ConeInEqr => 4,
            Code::ConeInPc => 5,
            Code::Parallel => 6,
            Code::TwoArcs => 7,
        }
    }
}

impl TryFrom<u8> for Code {
    type Error = NoCode;

    ghost try_from_gives = { λ byte r. MatchResult r (λ code. code_byte code ≡ byte) (λ _. HasNoCode byte) };

    fn try_from(byte: u8) -> Result<Code, NoCode> {
        match byte {
            1 => Ok(Code::Precision),
            2 => Ok(Code::Allowance),
            3 => Ok(Code::Arc),
            4 => Ok(Code::ConeInEqr),
            5 => Ok(Code::ConeInPc),
            6 => Ok(Code::Parallel),
            7 => Ok(Code::TwoArcs),
            _ => Err(NoCode),
        }
    }
}

impl Code {
    #[tactic(auto, using(crate::proofs::Widths::operand_column, crate::proofs::Widths::widest_operands))]
    pub fn operand_width(self) -> usize
        ensures { (result ≡ operand_width (code_byte self)) × (result ≤ 64) }
    {
        match self {
            Code::Precision => 8,
            Code::Allowance => 1,
            Code::Arc => 32,
            Code::ConeInEqr => 25,
            Code::ConeInPc => 34,
            Code::Parallel => 40,
            Code::TwoArcs => 64,
        }
    }

    #[tactic(auto, using(crate::proofs::Widths::answer_column, crate::proofs::Widths::widest_answer))]
    fn answer_width(self) -> usize
        ensures { (result ≡ answer_width (code_byte self)) × (result ≤ 90) }
    {
        match self {
            Code::Precision => 0,
            Code::Allowance => 0,
            Code::Arc => 90,
            Code::ConeInEqr => 10,
            Code::ConeInPc => 10,
            Code::Parallel => 17,
            Code::TwoArcs => 17,
        }
    }

    // With code and status.
    pub fn reply_width(self) -> usize
        ensures { (result ≡ 2 + answer_width (code_byte self)) × (result ≤ 92) }
    {
        2 + self.answer_width()
    }
}
