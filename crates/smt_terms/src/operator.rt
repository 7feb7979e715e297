//! The operators, by their names.

ghost use Rattle.std.specs.Prelude.{◌≡◌};
ghost use Rattle.smt_terms.specs.inner.Operators.{binary_name, operator_name, operator_named, plain_operators};

/// An operator on two bit-vectors of one width that gives one of that width.
#[derive(Clone, Copy)]
pub enum Binary {
    Add,
    Sub,
    Mul,
    Udiv,
    Urem,
    And,
    Or,
    Xor,
    Shl,
    Lshr,
    Ashr,
}

/// An operator with its numerals.
#[derive(Clone, Copy)]
pub enum Operator {
    Ite,
    And,
    Not,
    Equal,
    Neg,
    Binary(Binary),
    Ult,
    Slt,
    Concat,
    Select,
    Store,
    SignExtend(u32),
    ZeroExtend(u32),
    Extract(u32, u32),
}

/// The operators without numerals.
static OPERATORS: [Operator; 21] = [
    Operator::Ite,
    Operator::And,
    Operator::Not,
    Operator::Equal,
    Operator::Binary(Binary::Add),
    Operator::Binary(Binary::Sub),
    Operator::Neg,
    Operator::Binary(Binary::Mul),
    Operator::Binary(Binary::Udiv),
    Operator::Binary(Binary::Urem),
    Operator::Binary(Binary::And),
    Operator::Binary(Binary::Or),
    Operator::Binary(Binary::Xor),
    Operator::Binary(Binary::Shl),
    Operator::Binary(Binary::Lshr),
    Operator::Binary(Binary::Ashr),
    Operator::Ult,
    Operator::Slt,
    Operator::Concat,
    Operator::Select,
    Operator::Store,
];

fn name_of_binary(op: Binary) -> &'static [u8]
    ensures { result.now ≡ binary_name op }
{
    match op {
        Binary::Add => b"bvadd",
        Binary::Sub => b"bvsub",
        Binary::Mul => b"bvmul",
        Binary::Udiv => b"bvudiv",
        Binary::Urem => b"bvurem",
        Binary::And => b"bvand",
        Binary::Or => b"bvor",
        Binary::Xor => b"bvxor",
        Binary::Shl => b"bvshl",
        Binary::Lshr => b"bvlshr",
        Binary::Ashr => b"bvashr",
    }
}

fn name_of(op: Operator) -> &'static [u8]
    ensures { result.now ≡ operator_name op }
{
    match op {
        Operator::Ite => b"ite",
        Operator::And => b"and",
        Operator::Not => b"not",
        Operator::Equal => b"=",
        Operator::Neg => b"bvneg",
        Operator::Binary(op) => name_of_binary(op),
        Operator::Ult => b"bvult",
        Operator::Slt => b"bvslt",
        Operator::Concat => b"concat",
        Operator::Select => b"select",
        Operator::Store => b"store",
        Operator::SignExtend(_) => b"sign_extend",
        Operator::ZeroExtend(_) => b"zero_extend",
        Operator::Extract(_, _) => b"extract",
    }
}

/// The operator without numerals of that name.
#[tactic(auto, using(crate::proofs::HeadNames::named_next, crate::proofs::HeadNames::named_here, crate::proofs::HeadNames::named_nowhere))]
pub fn operator_of(name: &[u8]) -> Option<Operator>
    ensures { result ≡ operator_named name.now plain_operators }
{
    for &op in &OPERATORS {
        if name == name_of(op) {
            return Some(op);
        }
    }
    None
}
