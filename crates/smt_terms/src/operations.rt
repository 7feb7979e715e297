//! The functions that stand for the operations of words.

ghost use Rattle.std.specs.Prelude.{◌≡◌, ◌∷◌, [], IfOk, codes};
ghost use Rattle.smt_terms.specs.Expression.{Atom, End, Node, Then, indexed, literal};
ghost use Rattle.smt_terms.specs.Views.{expr};
ghost use Rattle.rv_words.specs.declared.operation.Op.TheVariants.{Divw, Remw};
ghost use Rattle.smt_terms.specs.Helpers.{a, b, by_sign, by_signs, extract, truth_as_word, from_half, high, low_half, of_absolute, operation_expr, signed_quotient, signed_remainder, turned, two};
ghost use Rattle.smt_terms.specs.inner.Sizes.{ones_of, operand, width_of};

use crate::tree::{Tree, atom, ite, one, three, two};
use mc_text::put_atom;
use rv_words::{List, NoMemory, Op};
use std::alloc::Global;

/// How many bits an operation works on.
#[derive(Clone, Copy, PartialEq, Eq)]
pub enum Size {
    Word,
    Half,
}

impl Size {
    fn width(self) -> &'static [u8]
        ensures { result.now ≡ width_of self }
    {
        match self {
            Size::Word => b"64",
            Size::Half => b"32",
        }
    }

    /// The greatest number of so many bits.
    fn ones(self) -> &'static [u8]
        ensures { result.now ≡ ones_of self }
    {
        match self {
            Size::Word => b"18446744073709551615",
            Size::Half => b"4294967295",
        }
    }
}

/// The sign of a number.
#[derive(Clone, Copy, PartialEq, Eq)]
pub enum Sign {
    Plus,
    Minus,
}

/// The signs of a division's results, where both operands are below zero, and where the first alone
/// or the second alone is.
#[derive(Clone, Copy)]
struct Signs {
    both: Sign,
    first: Sign,
    second: Sign,
}

/// The bit-vector of that width and number.
pub fn literal(alloc: Global, width: &[u8], n: &[u8]) -> Result<Tree, NoMemory>
    ensures { IfOk result (λ t. expr t ≡ literal width.now n.now) }
{
    let mut name = List::new(alloc);
    put_atom(&mut name, b"bv")?;
    put_atom(&mut name, n)?;
    let width = atom(alloc, width)?;
    two(alloc, b"_", Tree::Atom(name), width)
}

/// An operator with numerals applied to a term.
fn applied(alloc: Global, operator: Tree, x: Tree) -> Result<Tree, NoMemory>
    ensures { IfOk result (λ t. expr t ≡ Node (Then (expr operator) (Then (expr x) End))) }
{
    let mut items = List::new(alloc);
    items.push(operator)?;
    items.push(x)?;
    Ok(Tree::Node(items))
}

/// Bits `i` to `j` of a term.
pub fn extract(alloc: Global, i: &[u8], j: &[u8], x: Tree) -> Result<Tree, NoMemory>
    ensures { IfOk result (λ t. expr t ≡ extract i.now j.now (expr x)) }
{
    let name = atom(alloc, b"extract")?;
    let i = atom(alloc, i)?;
    let j = atom(alloc, j)?;
    let operator = three(alloc, b"_", name, i, j)?;
    applied(alloc, operator, x)
}

/// A term with `k` more bits, by that operator.
pub fn extended(alloc: Global, name: &[u8], k: &[u8], x: Tree) -> Result<Tree, NoMemory>
    ensures { IfOk result (λ t. expr t ≡ indexed name.now (k.now ∷ []) (expr x ∷ [])) }
{
    let name = atom(alloc, name)?;
    let k = atom(alloc, k)?;
    let operator = two(alloc, b"_", name, k)?;
    applied(alloc, operator, x)
}

/// An operand of an operation.
fn operand(alloc: Global, size: Size, name: &[u8]) -> Result<Tree, NoMemory>
    ensures { IfOk result (λ t. expr t ≡ operand size (Atom name.now)) }
{
    let word = atom(alloc, name)?;
    match size {
        Size::Word => Ok(word),
        Size::Half => extract(alloc, b"31", b"0", word),
    }
}

/// An operator applied to both operands.
fn plain(alloc: Global, size: Size, name: &[u8]) -> Result<Tree, NoMemory>
    ensures { IfOk result (λ t. expr t ≡ two name.now (operand size a) (operand size b)) }
{
    let x = operand(alloc, size, b"a")?;
    let y = operand(alloc, size, b"b")?;
    two(alloc, name, x, y)
}

/// A shift by the second operand's low bits.
fn shifted(alloc: Global, size: Size, name: &[u8], mask: &[u8]) -> Result<Tree, NoMemory>
    ensures { IfOk result (λ t.
        expr t
        ≡ two name.now (operand size a) (two (codes "bvand") (operand size b)
        (literal (width_of size) mask.now))) }
{
    let x = operand(alloc, size, b"a")?;
    let y = operand(alloc, size, b"b")?;
    let mask = literal(alloc, size.width(), mask)?;
    let amount = two(alloc, b"bvand", y, mask)?;
    two(alloc, name, x, amount)
}

/// 1 where the comparison of the operands holds, else 0.
fn truth_as_word(alloc: Global, name: &[u8]) -> Result<Tree, NoMemory>
    ensures { IfOk result (λ t. expr t ≡ truth_as_word (two name.now a b)) }
{
    let c = plain(alloc, Size::Word, name)?;
    let yes = literal(alloc, b"64", b"1")?;
    let no = literal(alloc, b"64", b"0")?;
    ite(alloc, c, yes, no)
}

/// The high half of the product of the operands, which are extended by these operators.
fn high(alloc: Global, first: &[u8], second: &[u8]) -> Result<Tree, NoMemory>
    ensures { IfOk result (λ t.
        expr t
        ≡ high (indexed first.now (codes "64" ∷ []) (a ∷ []))
        (indexed second.now (codes "64" ∷ []) (b ∷ []))) }
{
    let x = atom(alloc, b"a")?;
    let x = extended(alloc, first, b"64", x)?;
    let y = atom(alloc, b"b")?;
    let y = extended(alloc, second, b"64", y)?;
    let product = two(alloc, b"bvmul", x, y)?;
    extract(alloc, b"127", b"64", product)
}

/// A term, or its negation.
fn turned(alloc: Global, sign: Sign, x: Tree) -> Result<Tree, NoMemory>
    ensures { IfOk result (λ t. expr t ≡ turned sign (expr x)) }
{
    match sign {
        Sign::Plus => Ok(x),
        Sign::Minus => one(alloc, b"bvneg", x),
    }
}

/// A division of absolute values, by the signs of its result and of the operands.
fn of_absolute(
    alloc: Global,
    size: Size,
    name: &[u8],
    result_sign: Sign,
    first: Sign,
    second: Sign,
) -> Result<Tree, NoMemory>
    ensures { IfOk result (λ t.
        expr t ≡ of_absolute name.now result_sign first second (operand size a) (operand size b)) }
{
    let x = operand(alloc, size, b"a")?;
    let x = turned(alloc, first, x)?;
    let y = operand(alloc, size, b"b")?;
    let y = turned(alloc, second, y)?;
    let divided = two(alloc, name, x, y)?;
    turned(alloc, result_sign, divided)
}

/// The first term where that operand is below zero, else the second.
fn by_sign(alloc: Global, size: Size, name: &[u8], p: Tree, q: Tree) -> Result<Tree, NoMemory>
    ensures { IfOk result (λ t.
        expr t ≡ by_sign (width_of size) (operand size (Atom name.now)) (expr p) (expr q)) }
{
    let x = operand(alloc, size, name)?;
    let zero = literal(alloc, size.width(), b"0")?;
    let below = two(alloc, b"bvslt", x, zero)?;
    ite(alloc, below, p, q)
}

/// A division by the signs of its operands.
fn by_signs(alloc: Global, size: Size, name: &[u8], signs: Signs) -> Result<Tree, NoMemory>
    ensures { IfOk result (λ t.
        expr t
        ≡ by_signs name.now (width_of size) signs.both signs.first signs.second (operand size a)
        (operand size b)) }
{
    let both = of_absolute(alloc, size, name, signs.both, Sign::Minus, Sign::Minus)?;
    let first = of_absolute(alloc, size, name, signs.first, Sign::Minus, Sign::Plus)?;
    let below = by_sign(alloc, size, b"b", both, first)?;
    let second = of_absolute(alloc, size, name, signs.second, Sign::Plus, Sign::Minus)?;
    let neither = of_absolute(alloc, size, name, Sign::Plus, Sign::Plus, Sign::Plus)?;
    let above = by_sign(alloc, size, b"b", second, neither)?;
    by_sign(alloc, size, b"a", below, above)
}

fn signed_quotient(alloc: Global, size: Size) -> Result<Tree, NoMemory>
    ensures { IfOk result (λ t.
        expr t ≡ signed_quotient (width_of size) (ones_of size) (operand size a) (operand size b)) }
{
    let y = operand(alloc, size, b"b")?;
    let zero = literal(alloc, size.width(), b"0")?;
    let is_zero = two(alloc, b"=", y, zero)?;
    let ones = literal(alloc, size.width(), size.ones())?;
    let signs = Signs {
        both: Sign::Plus,
        first: Sign::Minus,
        second: Sign::Minus,
    };
    let otherwise = by_signs(alloc, size, b"bvudiv", signs)?;
    ite(alloc, is_zero, ones, otherwise)
}

fn signed_remainder(alloc: Global, size: Size) -> Result<Tree, NoMemory>
    ensures { IfOk result (λ t.
        expr t ≡ signed_remainder (width_of size) (operand size a) (operand size b)) }
{
    let signs = Signs {
        both: Sign::Minus,
        first: Sign::Minus,
        second: Sign::Plus,
    };
    by_signs(alloc, size, b"bvurem", signs)
}

/// A word whose low half this is, with its sign extended.
fn from_half(alloc: Global, x: Tree) -> Result<Tree, NoMemory>
    ensures { IfOk result (λ t. expr t ≡ from_half (expr x)) }
{
    extended(alloc, b"sign_extend", b"32", x)
}

/// An operation's value, as a term of its operands `a` and `b`.
pub fn operation_term(alloc: Global, op: Op) -> Result<Tree, NoMemory>
    ensures { IfOk result (λ t. expr t ≡ operation_expr op) }
{
    match op {
        Op::Add => plain(alloc, Size::Word, b"bvadd"),
        Op::Sub => plain(alloc, Size::Word, b"bvsub"),
        Op::Sll => shifted(alloc, Size::Word, b"bvshl", b"63"),
        Op::Slt => truth_as_word(alloc, b"bvslt"),
        Op::Sltu => truth_as_word(alloc, b"bvult"),
        Op::Xor => plain(alloc, Size::Word, b"bvxor"),
        Op::Srl => shifted(alloc, Size::Word, b"bvlshr", b"63"),
        Op::Sra => shifted(alloc, Size::Word, b"bvashr", b"63"),
        Op::Or => plain(alloc, Size::Word, b"bvor"),
        Op::And => plain(alloc, Size::Word, b"bvand"),
        Op::Mul => plain(alloc, Size::Word, b"bvmul"),
        Op::Mulh => high(alloc, b"sign_extend", b"sign_extend"),
        Op::Mulhsu => high(alloc, b"sign_extend", b"zero_extend"),
        Op::Mulhu => high(alloc, b"zero_extend", b"zero_extend"),
        Op::Div => signed_quotient(alloc, Size::Word),
        Op::Divu => plain(alloc, Size::Word, b"bvudiv"),
        Op::Rem => signed_remainder(alloc, Size::Word),
        Op::Remu => plain(alloc, Size::Word, b"bvurem"),
        Op::Addw => half_plain(alloc, b"bvadd"),
        Op::Subw => half_plain(alloc, b"bvsub"),
        Op::Sllw => half_shifted(alloc, b"bvshl"),
        Op::Srlw => half_shifted(alloc, b"bvlshr"),
        Op::Sraw => half_shifted(alloc, b"bvashr"),
        Op::Mulw => half_plain(alloc, b"bvmul"),
        Op::Divw => half_quotient(alloc),
        Op::Divuw => half_plain(alloc, b"bvudiv"),
        Op::Remw => half_remainder(alloc),
        Op::Remuw => half_plain(alloc, b"bvurem"),
    }
}

fn half_plain(alloc: Global, name: &[u8]) -> Result<Tree, NoMemory>
    ensures { IfOk result (λ t. expr t ≡ from_half (two name.now (low_half a) (low_half b))) }
{
    let x = plain(alloc, Size::Half, name)?;
    from_half(alloc, x)
}

fn half_shifted(alloc: Global, name: &[u8]) -> Result<Tree, NoMemory>
    ensures { IfOk result (λ t.
        expr t
        ≡ from_half (two name.now (low_half a) (two (codes "bvand") (low_half b)
        (literal (codes "32") (codes "31"))))) }
{
    let x = shifted(alloc, Size::Half, name, b"31")?;
    from_half(alloc, x)
}

fn half_quotient(alloc: Global) -> Result<Tree, NoMemory>
    ensures { IfOk result (λ t. expr t ≡ operation_expr Divw) }
{
    let x = signed_quotient(alloc, Size::Half)?;
    from_half(alloc, x)
}

fn half_remainder(alloc: Global) -> Result<Tree, NoMemory>
    ensures { IfOk result (λ t. expr t ≡ operation_expr Remw) }
{
    let x = signed_remainder(alloc, Size::Half)?;
    from_half(alloc, x)
}
