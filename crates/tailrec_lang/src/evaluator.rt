//! Evaluation within a number of turns.

ghost use Rattle.std.specs.Prelude.{◌≡◌, ◌<◌, ℕ, [], length, slice_get, Some, IfOk};
ghost use Rattle.tailrec_lang.specs.Tree.{DefTree, GroupTree, body_tree, exits_at, group_tree};
ghost use Rattle.tailrec_lang.specs.inner.Tree.{arm_trees};
ghost use Rattle.tailrec_lang.specs.WellFormed.{IsWellFormed};
ghost use Rattle.tailrec_lang.specs.Eval.{HasFewNeeds, LeavesInScope, Meaning, arguments, arm_ending, done_by, outcome_of, variables_of, with_arguments};
ghost use Rattle.tailrec_lang.specs.Eval.{eval as outcome};
ghost use Rattle.tailrec_lang.specs.inner.Walk.{FrameFits, IsLeft, ResultsFit, Waits, WalkFits, needs_passed, unwound, walk_ending};

use crate::args::Args;
use crate::group::{Body, Exit, Group};
use crate::passed::{Passed, Skipped};
use crate::scope::exits_of;
use crate::walk::{Transfer, Walk, go_through};
use rv_words::{List, NoMemory};
use std::alloc::Global;

/// How an evaluation ends.
#[derive(Debug, Drop)]
pub enum Outcome {
    /// By an exit, with the program counter and the words and memories there, and with turns left.
    Done {
        exit: u32,
        pc: u64,
        args: Args,
        left: u64,
    },
    /// At a Need that is false: its definition, and its number among that definition's Needs, in
    /// the order of the text, from 0 on.
    SideFalse {
        def: u32,
        ordinal: u64,
    },
    /// All turns were used.
    Turns,
}

/// A call that waits for the definition that it entered: in which definition it stands, which one
/// it entered, the variables at the call, what stands before it, and its arms.
#[derive(Drop)]
pub struct Frame<'a> {
    def: u32,
    callee: u32,
    variables: Args,
    passed: Passed<'a>,
    arms: &'a [Body],
}

/// A place in a body of that definition where control is given on.
#[derive(Drop)]
struct Position<'a> {
    def: u32,
    walk: Walk<'a>,
}

/// How the definition of that number ends on these arguments. Each entry into a body takes a turn.
/// Calls that wait are kept in a list.
pub fn eval(
    alloc: Global,
    g: &Group,
    def: u32,
    args: &Args,
    turns: u64,
) -> Result<Outcome, NoMemory>
    requires well_formed { IsWellFormed (group_tree g.now) }
    requires needs { HasFewNeeds (group_tree g.now) }
    requires def { def < length g.now.defs }
    requires words { length args.now.words ≡ length g.now.regs }
    requires mems { length args.now.mems ≡ g.now.mems }
    ensures ok { IfOk result (λ o.
        outcome_of o ≡ outcome (group_tree g.now) def (arguments args.now) turns) }
    ensures within { IfOk result (λ o. LeavesInScope (group_tree g.now) def turns (outcome_of o)) }
{
    let mut waiting = List::new(alloc);
    let mut current = def;
    let mut variables = args.copy(alloc)?;
    let mut left = turns;
    'turns_left: while left > 0 {
        left -= 1;
        let start = Passed::nothing(alloc);
        let entered = go_through(alloc, body_of(g, current), variables, start)?;
        let place = return_through(alloc, &mut waiting, current, entered)?;
        let Walk {
            variables: here,
            passed,
            stop,
        } = place.walk;
        match stop {
            Transfer::Again(args) => {
                current = place.def;
                variables = args;
            }
            Transfer::Call(callee, args, arms) => {
                waiting.push(Frame {
                    def: place.def,
                    callee,
                    variables: here,
                    passed,
                    arms,
                })?;
                current = callee;
                variables = args;
            }
            Transfer::Left(exit, results) => return done(alloc, g, def, exit, results, left),
            Transfer::False => {
                let def = place.def;
                let ordinal = passed.needs();
                return Ok(Outcome::SideFalse { def, ordinal });
            }
        }
    }
    Ok(Outcome::Turns)
}

/// The body of the definition of that number.
fn body_of(g: &Group, def: u32) -> &Body
    requires { def < length g.now.defs }
    ensures { (d : DefTree)
        → slice_get (group_tree g.now).defs def ≡ Some d
        → body_tree result.now ≡ d.body }
{
    &g.defs.as_slice()[def as usize].body
}

/// Goes on with the arms that wait, as long as a body leaves its definition and a call waits for
/// that.
fn return_through<'a>(
    alloc: Global,
    waiting: &mut List<Frame<'a>>,
    def: u32,
    walk: Walk<'a>,
) -> Result<Position<'a>, NoMemory>
    requires { (g : GroupTree) × (first : ℕ)
        × Waits g first waiting.old def
        × WalkFits g def walk
        × (def < length g.defs) }
    ensures ending { IfOk result (λ place.
        (call : Meaning) (left : ℕ)
        → unwound call waiting.old (walk_ending call def walk.entry left)
        ≡ unwound call waiting.new (walk_ending call place.def place.walk left)) }
    ensures fits { IfOk result (λ place.
        (g : GroupTree) (first : ℕ)
        → Waits g first waiting.old def
        → WalkFits g def walk.entry
        → def < length g.defs
        → Waits g first waiting.new place.def
        × WalkFits g place.def place.walk
        × (place.def < length g.defs)) }
    ensures left { IfOk result (λ place. IsLeft place.walk → waiting.new ≡ []) }
{
    let mut def = def;
    let mut walk = walk;
    'pops: loop {
        let Walk {
            variables,
            passed,
            stop,
        } = walk;
        match stop {
            Transfer::Left(exit, results) => match waiting.pop() {
                Some(frame) => {
                    def = frame.def;
                    walk = resume(alloc, frame, exit, results)?;
                }
                None => {
                    let stop = Transfer::Left(exit, results);
                    return Ok(Position {
                        def,
                        walk: Walk {
                            variables,
                            passed,
                            stop,
                        },
                    });
                }
            },
            stop => return Ok(Position {
                def,
                walk: Walk {
                    variables,
                    passed,
                    stop,
                },
            }),
        }
    }
}

/// Goes on with the arm of an exit.
fn resume<'a>(
    alloc: Global,
    frame: Frame<'a>,
    exit: u32,
    results: Args,
) -> Result<Walk<'a>, NoMemory>
    requires { (g : GroupTree)
        × FrameFits g frame
        × ResultsFit g (slice_get (exits_at g frame.callee) exit) results }
    ensures ending { IfOk result (λ w.
        (call : Meaning) (left : ℕ)
        → arm_ending call frame.entry.def (arm_trees frame.entry.arms.now) exit
        (with_arguments (variables_of frame.entry.variables) (arguments results))
        (needs_passed frame.entry.passed) left ≡ walk_ending call frame.entry.def w left) }
    ensures fits { IfOk result (λ w.
        (g : GroupTree)
        → FrameFits g frame.entry
        → ResultsFit g (slice_get (exits_at g frame.entry.callee) exit) results
        → WalkFits g frame.entry.def w) }
{
    let arms = frame.arms;
    let place = exit as usize;
    let before = &arms[..place];
    let mut passed = frame.passed;
    passed.skip(Skipped::Arms(before))?;
    let mut variables = frame.variables;
    variables.append(results)?;
    let arm = &arms[place];
    go_through(alloc, arm, variables, passed)
}

/// The outcome of leaving by an exit.
fn done(
    alloc: Global,
    g: &Group,
    def: u32,
    exit: u32,
    results: Args,
    left: u64,
) -> Result<Outcome, NoMemory>
    requires { ResultsFit (group_tree g.now) (slice_get (exits_at (group_tree g.now) def) exit)
        results }
    ensures { IfOk result (λ o.
        outcome_of o
        ≡ done_by (slice_get (exits_at (group_tree g.now) def) exit) exit (arguments results)
        left) }
{
    match exit_of(g, def, exit) {
        Exit::At(pc) => Ok(Outcome::Done {
            exit,
            pc,
            args: results,
            left,
        }),
        Exit::Ret => {
            let words = results.words.as_slice();
            let pc = words[0];
            let words = List::from_slice(alloc, &words[1..])?;
            let args = Args {
                words,
                mems: results.mems,
            };
            Ok(Outcome::Done {
                exit,
                pc,
                args,
                left,
            })
        }
    }
}

/// An exit of a definition.
fn exit_of(g: &Group, def: u32, exit: u32) -> Exit
    requires { exit < length (exits_at (group_tree g.now) def) }
    ensures { slice_get (exits_at (group_tree g.now) def) exit ≡ Some result }
{
    exits_of(g, def as usize)[exit as usize]
}
