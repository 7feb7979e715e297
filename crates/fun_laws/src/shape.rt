//! The laws by their shapes.

ghost use Rattle.std.specs.Prelude.{◌≡◌, ◌≢◌, ◌+◌, ◌%◌, ◌^◌, ℕ, option_map, slice_get, IfSome, IfNone, IsTrue, ◌↔◌, true, false};
ghost use Rattle.rv_words.specs.declared.operation.Op.TheVariants.{Add};
ghost use Rattle.rv_words.specs.declared.extension.Ext.TheVariants.{Sx4};
ghost use Rattle.word_terms.specs.Tree.{Bin, Compare, CondTree, Const, Extend, Neg, WordTree, cond_tree, word_tree};
ghost use Rattle.fun_laws.specs.Laws.{LawGives, OfCond, OfWord, Term, is_constant, law_at};
ghost use Rattle.fun_laws.specs.inner.Shapes.{given_cond_tree, given_tree, law_of};

use rv_words::{Cmp, Ext, Op, apply, extend};
use word_terms::{Cond, Word, same_word};

/// The form of a law.
#[derive(Clone, Copy)]
pub enum Shape {
    RightUnit(Op, u64),
    LeftUnit,
    RightZero(Op),
    SameZero(Op),
    SamePart(Op),
    FoldBin,
    FoldExtend,
    AddTwice,
    ExtendTwice,
    ExtendOf(Op),
    AddwZero,
    Turn,
    Not(Cmp, Cmp),
    NotNot,
}

/// What a law of words gives, by parts of the word.
#[derive(Drop)]
pub enum Given<'a> {
    Part(&'a Word),
    Constant(u64),
    Added(&'a Word, u64),
    Extended(&'a Word),
}

/// How many laws there are. Their numbers go from 1 to this.
pub const LAW_COUNT: u32 = 31;

/// The laws from 1 on.
const SHAPES: [Shape; 31] = [
    Shape::RightUnit(Op::Add, 0),
    Shape::LeftUnit,
    Shape::RightUnit(Op::Sub, 0),
    Shape::RightUnit(Op::Or, 0),
    Shape::RightUnit(Op::Xor, 0),
    Shape::RightUnit(Op::Mul, 1),
    Shape::RightUnit(Op::And, u64::MAX),
    Shape::RightZero(Op::And),
    Shape::RightZero(Op::Mul),
    Shape::SameZero(Op::Xor),
    Shape::SameZero(Op::Sub),
    Shape::SamePart(Op::And),
    Shape::SamePart(Op::Or),
    Shape::FoldBin,
    Shape::FoldExtend,
    Shape::AddTwice,
    Shape::RightUnit(Op::Sll, 0),
    Shape::RightUnit(Op::Srl, 0),
    Shape::RightUnit(Op::Sra, 0),
    Shape::ExtendTwice,
    Shape::ExtendOf(Op::Addw),
    Shape::ExtendOf(Op::Subw),
    Shape::AddwZero,
    Shape::Turn,
    Shape::Not(Cmp::Eq, Cmp::Ne),
    Shape::Not(Cmp::Ne, Cmp::Eq),
    Shape::Not(Cmp::Lt, Cmp::Ge),
    Shape::Not(Cmp::Ge, Cmp::Lt),
    Shape::Not(Cmp::Ltu, Cmp::Geu),
    Shape::Not(Cmp::Geu, Cmp::Ltu),
    Shape::NotNot,
];

/// The law of that number.
#[tactic(auto, using(crate::proofs::Given::shapes_at))]
pub fn shape_of(law: u32) -> Option<Shape>
    ensures { option_map law_of result ≡ law_at law }
{
    if law == 0 {
        return None;
    }
    shape_at(&SHAPES, law as usize - 1)
}

/// The shape of that place.
fn shape_at(shapes: &[Shape], i: usize) -> Option<Shape>
    ensures { result ≡ slice_get shapes.now i }
{
    shapes.get(i).copied()
}

/// Whether the word is that constant.
fn is_const(t: &Word, n: u64) -> bool
    ensures { IsTrue result ↔ (word_tree t.now ≡ Const n) }
{
    match t {
        Word::Const(m) => *m == n,
        _ => false,
    }
}

/// The operands of that operation.
fn operands(t: &Word, op: Op) -> Option<(&Word, &Word)>
    ensures some { IfSome result (λ p.
        word_tree t.now ≡ Bin op (word_tree p.0.now) (word_tree p.1.now)) }
    ensures none { IfNone result ((x y : WordTree) → word_tree t.now ≢ Bin op x y) }
{
    match t {
        Word::Bin(o, a, b) => { if *o == op { Some((a, b)) } else { None } }
        _ => None,
    }
}

/// What the law gives of a word, if it matches there.
pub fn given_of<'a>(shape: Shape, t: &'a Word) -> Option<Given<'a>>
    ensures some { IfSome result (λ g.
        LawGives (law_of shape) (OfWord (word_tree t.now)) (OfWord (given_tree g))) }
    ensures none { IfNone result ((u : Term)
        → LawGives (law_of shape) (OfWord (word_tree t.now)) u
        → ⊥) }
{
    match shape {
        Shape::RightUnit(op, c) => right_unit(t, op, c),
        Shape::LeftUnit => left_unit(t),
        Shape::RightZero(op) => right_zero(t, op),
        Shape::SameZero(op) => same_zero(t, op),
        Shape::SamePart(op) => same_part(t, op),
        Shape::FoldBin => fold_bin(t),
        Shape::FoldExtend => fold_extend(t),
        Shape::AddTwice => add_twice(t),
        Shape::ExtendTwice => extend_twice(t),
        Shape::ExtendOf(op) => extend_of(t, op),
        Shape::AddwZero => addw_zero(t),
        Shape::Turn => turn(t),
        Shape::Not(_, _) => None,
        Shape::NotNot => None,
    }
}

fn right_unit<'a>(t: &'a Word, op: Op, c: u64) -> Option<Given<'a>>
    ensures some { IfSome result (λ g.
        LawGives (law_of (Shape.RightUnit op c)) (OfWord (word_tree t.now))
        (OfWord (given_tree g))) }
    ensures none { IfNone result ((u : Term)
        → LawGives (law_of (Shape.RightUnit op c)) (OfWord (word_tree t.now)) u
        → ⊥) }
{
    match operands(t, op) {
        Some((a, b)) => {
            if is_const(b, c) {
                Some(Given::Part(a))
            } else {
                None
            }
        }
        None => None,
    }
}

fn left_unit<'a>(t: &'a Word) -> Option<Given<'a>>
    ensures some { IfSome result (λ g.
        LawGives (law_of (Shape.LeftUnit)) (OfWord (word_tree t.now)) (OfWord (given_tree g))) }
    ensures none { IfNone result ((u : Term)
        → LawGives (law_of (Shape.LeftUnit)) (OfWord (word_tree t.now)) u
        → ⊥) }
{
    match operands(t, Op::Add) {
        Some((a, b)) => {
            if is_const(a, 0) {
                Some(Given::Part(b))
            } else {
                None
            }
        }
        None => None,
    }
}

fn right_zero<'a>(t: &'a Word, op: Op) -> Option<Given<'a>>
    ensures some { IfSome result (λ g.
        LawGives (law_of (Shape.RightZero op)) (OfWord (word_tree t.now)) (OfWord (given_tree g))) }
    ensures none { IfNone result ((u : Term)
        → LawGives (law_of (Shape.RightZero op)) (OfWord (word_tree t.now)) u
        → ⊥) }
{
    match operands(t, op) {
        Some((a, b)) => {
            if is_const(b, 0) {
                Some(Given::Constant(0))
            } else {
                None
            }
        }
        None => None,
    }
}

fn same_zero<'a>(t: &'a Word, op: Op) -> Option<Given<'a>>
    ensures some { IfSome result (λ g.
        LawGives (law_of (Shape.SameZero op)) (OfWord (word_tree t.now)) (OfWord (given_tree g))) }
    ensures none { IfNone result ((u : Term)
        → LawGives (law_of (Shape.SameZero op)) (OfWord (word_tree t.now)) u
        → ⊥) }
{
    match operands(t, op) {
        Some((a, b)) => {
            if same_word(a, b) {
                Some(Given::Constant(0))
            } else {
                None
            }
        }
        None => None,
    }
}

fn same_part<'a>(t: &'a Word, op: Op) -> Option<Given<'a>>
    ensures some { IfSome result (λ g.
        LawGives (law_of (Shape.SamePart op)) (OfWord (word_tree t.now)) (OfWord (given_tree g))) }
    ensures none { IfNone result ((u : Term)
        → LawGives (law_of (Shape.SamePart op)) (OfWord (word_tree t.now)) u
        → ⊥) }
{
    match operands(t, op) {
        Some((a, b)) => {
            if same_word(a, b) {
                Some(Given::Part(a))
            } else {
                None
            }
        }
        None => None,
    }
}

fn addw_zero<'a>(t: &'a Word) -> Option<Given<'a>>
    ensures some { IfSome result (λ g.
        LawGives (law_of (Shape.AddwZero)) (OfWord (word_tree t.now)) (OfWord (given_tree g))) }
    ensures none { IfNone result ((u : Term)
        → LawGives (law_of (Shape.AddwZero)) (OfWord (word_tree t.now)) u
        → ⊥) }
{
    match operands(t, Op::Addw) {
        Some((a, b)) => {
            if is_const(b, 0) {
                Some(Given::Extended(a))
            } else {
                None
            }
        }
        None => None,
    }
}

fn fold_bin<'a>(t: &'a Word) -> Option<Given<'a>>
    ensures some { IfSome result (λ g.
        LawGives (law_of (Shape.FoldBin)) (OfWord (word_tree t.now)) (OfWord (given_tree g))) }
    ensures none { IfNone result ((u : Term)
        → LawGives (law_of (Shape.FoldBin)) (OfWord (word_tree t.now)) u
        → ⊥) }
{
    match t {
        Word::Bin(op, a, b) => match (const_of(a), const_of(b)) {
            (Some(c), Some(d)) => Some(Given::Constant(apply(*op, c, d))),
            _ => None,
        },
        _ => None,
    }
}

fn fold_extend<'a>(t: &'a Word) -> Option<Given<'a>>
    ensures some { IfSome result (λ g.
        LawGives (law_of (Shape.FoldExtend)) (OfWord (word_tree t.now)) (OfWord (given_tree g))) }
    ensures none { IfNone result ((u : Term)
        → LawGives (law_of (Shape.FoldExtend)) (OfWord (word_tree t.now)) u
        → ⊥) }
{
    match t {
        Word::Extend(ext, a) => match const_of(a) {
            Some(c) => Some(Given::Constant(extend(*ext, c))),
            None => None,
        },
        _ => None,
    }
}

fn add_twice<'a>(t: &'a Word) -> Option<Given<'a>>
    ensures some { IfSome result (λ g.
        LawGives (law_of (Shape.AddTwice)) (OfWord (word_tree t.now)) (OfWord (given_tree g))) }
    ensures none { IfNone result ((u : Term)
        → LawGives (law_of (Shape.AddTwice)) (OfWord (word_tree t.now)) u
        → ⊥) }
{
    match operands(t, Op::Add) {
        Some((sum, last)) => match const_of(last) {
            Some(d) => added_again(sum, d),
            None => None,
        },
        None => None,
    }
}

fn extend_twice<'a>(t: &'a Word) -> Option<Given<'a>>
    ensures some { IfSome result (λ g.
        LawGives (law_of (Shape.ExtendTwice)) (OfWord (word_tree t.now)) (OfWord (given_tree g))) }
    ensures none { IfNone result ((u : Term)
        → LawGives (law_of (Shape.ExtendTwice)) (OfWord (word_tree t.now)) u
        → ⊥) }
{
    match extended(t) {
        Some(a) => match extended(a) {
            Some(_) => Some(Given::Part(a)),
            None => None,
        },
        None => None,
    }
}

fn extend_of<'a>(t: &'a Word, op: Op) -> Option<Given<'a>>
    ensures some { IfSome result (λ g.
        LawGives (law_of (Shape.ExtendOf op)) (OfWord (word_tree t.now)) (OfWord (given_tree g))) }
    ensures none { IfNone result ((u : Term)
        → LawGives (law_of (Shape.ExtendOf op)) (OfWord (word_tree t.now)) u
        → ⊥) }
{
    match extended(t) {
        Some(a) => match operands(a, op) {
            Some(_) => Some(Given::Part(a)),
            None => None,
        },
        None => None,
    }
}

fn turn<'a>(t: &'a Word) -> Option<Given<'a>>
    ensures some { IfSome result (λ g.
        LawGives (law_of (Shape.Turn)) (OfWord (word_tree t.now)) (OfWord (given_tree g))) }
    ensures none { IfNone result ((u : Term)
        → LawGives (law_of (Shape.Turn)) (OfWord (word_tree t.now)) u
        → ⊥) }
{
    match operands(t, Op::Add) {
        Some((a, b)) => match const_of(a) {
            Some(c) => added_to(b, c),
            None => None,
        },
        None => None,
    }
}

/// The constant that the word is.
fn const_of(t: &Word) -> Option<u64>
    ensures some { IfSome result (λ n. word_tree t.now ≡ Const n) }
    ensures none { IfNone result ((n : ℕ) → word_tree t.now ≢ Const n) }
{
    match t {
        Word::Const(n) => Some(*n),
        _ => None,
    }
}

/// What the extension of 4 bytes extends.
fn extended(t: &Word) -> Option<&Word>
    ensures some { IfSome result (λ a. word_tree t.now ≡ Extend Sx4 (word_tree a.now)) }
    ensures none { IfNone result ((x : WordTree) → word_tree t.now ≢ Extend Sx4 x) }
{
    match t {
        Word::Extend(ext, a) => { if *ext == Ext::Sx4 { Some(a) } else { None } }
        _ => None,
    }
}

/// The sum of a sum with a constant, and a further constant.
fn added_again<'a>(sum: &'a Word, d: u64) -> Option<Given<'a>>
    ensures some { IfSome result (λ g.
        (x : WordTree) × (c : ℕ)
        × (word_tree sum.now ≡ Bin Add x (Const c))
        × (given_tree g ≡ Bin Add x (Const ((c + d) % 2 ^ 64)))) }
    ensures none { IfNone result ((x : WordTree) (c : ℕ)
        → word_tree sum.now ≢ Bin Add x (Const c)) }
{
    match operands(sum, Op::Add) {
        Some((x, first)) => match const_of(first) {
            Some(c) => Some(Given::Added(x, c.wrapping_add(d))),
            None => None,
        },
        None => None,
    }
}

/// The sum of a word that is no constant, and a constant.
fn added_to<'a>(t: &'a Word, c: u64) -> Option<Given<'a>>
    ensures some { IfSome result (λ g.
        (is_constant (word_tree t.now) ≡ false)
        × (given_tree g ≡ Bin Add (word_tree t.now) (Const c))) }
    ensures none { IfNone result (is_constant (word_tree t.now) ≡ true) }
{
    match t {
        Word::Const(_) => None,
        _ => Some(Given::Added(t, c)),
    }
}

/// What a law of conditions gives, by parts of the condition.
#[derive(Drop)]
pub enum GivenCond<'a> {
    Compared(Cmp, &'a Word, &'a Word),
    Part(&'a Cond),
}

/// What the law gives of a condition, if it matches there.
pub fn given_of_cond<'a>(shape: Shape, c: &'a Cond) -> Option<GivenCond<'a>>
    ensures some { IfSome result (λ g.
        LawGives (law_of shape) (OfCond (cond_tree c.now)) (OfCond (given_cond_tree g))) }
    ensures none { IfNone result ((u : Term)
        → LawGives (law_of shape) (OfCond (cond_tree c.now)) u
        → ⊥) }
{
    match shape {
        Shape::Not(from, to) => not_compared(c, from, to),
        Shape::NotNot => not_not(c),
        _ => None,
    }
}

/// What the negation negates.
fn negated(c: &Cond) -> Option<&Cond>
    ensures some { IfSome result (λ d. cond_tree c.now ≡ Neg (cond_tree d.now)) }
    ensures none { IfNone result ((d : CondTree) → cond_tree c.now ≢ Neg d) }
{
    match c {
        Cond::Neg(d) => Some(d),
        _ => None,
    }
}

/// What that comparison compares.
fn compared(c: &Cond, cmp: Cmp) -> Option<(&Word, &Word)>
    ensures some { IfSome result (λ p.
        cond_tree c.now ≡ Compare cmp (word_tree p.0.now) (word_tree p.1.now)) }
    ensures none { IfNone result ((x y : WordTree) → cond_tree c.now ≢ Compare cmp x y) }
{
    match c {
        Cond::Compare(other, a, b) => { if *other == cmp { Some((a, b)) } else { None } }
        _ => None,
    }
}

fn not_compared<'a>(c: &'a Cond, from: Cmp, to: Cmp) -> Option<GivenCond<'a>>
    ensures some { IfSome result (λ g.
        LawGives (law_of (Shape.Not from to)) (OfCond (cond_tree c.now))
        (OfCond (given_cond_tree g))) }
    ensures none { IfNone result ((u : Term)
        → LawGives (law_of (Shape.Not from to)) (OfCond (cond_tree c.now)) u
        → ⊥) }
{
    match negated(c) {
        Some(d) => match compared(d, from) {
            Some((a, b)) => Some(GivenCond::Compared(to, a, b)),
            None => None,
        },
        None => None,
    }
}

fn not_not<'a>(c: &'a Cond) -> Option<GivenCond<'a>>
    ensures some { IfSome result (λ g.
        LawGives (law_of Shape.NotNot) (OfCond (cond_tree c.now)) (OfCond (given_cond_tree g))) }
    ensures none { IfNone result ((u : Term)
        → LawGives (law_of Shape.NotNot) (OfCond (cond_tree c.now)) u
        → ⊥) }
{
    match negated(c) {
        Some(d) => match negated(d) {
            Some(b) => Some(GivenCond::Part(b)),
            None => None,
        },
        None => None,
    }
}
