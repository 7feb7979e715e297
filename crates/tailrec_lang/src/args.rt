//! What a definition is entered or left with.

ghost use Rattle.std.specs.Prelude.{◌≡◌, ◌<◌, ◌+◌, All, IfOk, OnOk, Some, [], map, length, slice_get};
ghost use Rattle.word_terms.specs.Environment.{environment_of};
ghost use Rattle.word_terms.specs.Scope.{MemInScope, WordInScope};
ghost use Rattle.word_terms.specs.Tree.{mem_tree, word_tree};
ghost use Rattle.word_terms.specs.Value.{mem_value, word_value};
ghost use Rattle.std.specs.FinMap.{get};
ghost use Rattle.tailrec_lang.specs.Tree.{values_tree};
ghost use Rattle.tailrec_lang.specs.WellFormed.{ValuesInScope};
ghost use Rattle.tailrec_lang.specs.Eval.{arguments, arguments_of, variables_of, with_arguments};

use crate::group::Values;
use rv_words::{ByteMap, List, NoMemory};
use std::alloc::Global;
use word_terms::{Env, Mem, Word, memory_of, value};

/// What a definition is entered or left with: a word for each register of its group, in order, and
/// the group's memories.
#[derive(Debug, Drop)]
pub struct Args {
    pub words: List<u64>,
    pub mems: List<ByteMap>,
}

impl Args {
    /// These values as the variables from 0 on.
    pub fn env(&self) -> Env<'_>
        ensures variables { environment_of result ≡ variables_of self.now }
        ensures words { result.words.now ≡ self.now.words }
        ensures mems { result.mems.now ≡ self.now.mems }
    {
        Env {
            words: self.words.as_slice(),
            mems: self.mems.as_slice(),
        }
    }

    /// No values.
    pub(crate) fn none(alloc: Global) -> Args
        ensures words { result.words ≡ [] }
        ensures mems { result.mems ≡ [] }
    {
        Args {
            words: List::new(alloc),
            mems: List::new(alloc),
        }
    }

    /// The same values in memory of their own.
    pub fn copy(&self, alloc: Global) -> Result<Args, NoMemory>
        ensures words { IfOk result (λ copy. copy.words ≡ self.now.words) }
        ensures mems { IfOk result (λ copy. copy.mems ≡ self.now.mems) }
    {
        let words = List::from_slice(alloc, self.words.as_slice())?;
        let mems = copy_mems(alloc, self.mems.as_slice())?;
        Ok(Args { words, mems })
    }

    /// Moves the others to the end.
    #[tactic(auto, using(crate::proofs::Environments::variables_arguments))]
    pub(crate) fn append(&mut self, others: Args) -> Result<(), NoMemory>
        ensures after { OnOk result (variables_of self.new
            ≡ with_arguments (variables_of self.old) (arguments others)) }
        ensures words { OnOk result (length self.new.words
            ≡ length self.old.words + length others.words) }
        ensures mems { OnOk result (length self.new.mems
            ≡ length self.old.mems + length others.mems) }
    {
        self.words.append(others.words)?;
        self.mems.append(others.mems)?;
        Ok(())
    }
}

/// The same memories in memory of their own.
fn copy_mems(alloc: Global, mems: &[ByteMap]) -> Result<List<ByteMap>, NoMemory>
    ensures { IfOk result (λ copies. copies ≡ mems.now) }
{
    let mut copies = List::new(alloc);
    for m in mems {
        copies.push(m.copy(alloc)?)?;
    }
    Ok(copies)
}

/// The values of terms.
pub fn values_of(alloc: Global, values: &Values, variables: &Args) -> Result<Args, NoMemory>
    requires { ValuesInScope (values_tree values.now) (length variables.now.words)
        (length variables.now.mems) }
    ensures { IfOk result (λ x.
        arguments x ≡ arguments_of (values_tree values.now) (variables_of variables.now)) }
{
    let env = variables.env();
    let words = words_of(alloc, values.words.as_slice(), &env)?;
    let mems = mems_of(alloc, values.mems.as_slice(), &env)?;
    Ok(Args { words, mems })
}

/// The values of terms, where nothing else is done with the variables behind them: the last memory
/// takes the place of the variable that it stands on, and isn't copied.
pub fn last_values(alloc: Global, values: &Values, variables: Args) -> Result<Args, NoMemory>
    requires { ValuesInScope (values_tree values.now) (length variables.words)
        (length variables.mems) }
    ensures { IfOk result (λ x.
        arguments x ≡ arguments_of (values_tree values.now) (variables_of variables)) }
{
    let env = variables.env();
    let words = words_of(alloc, values.words.as_slice(), &env)?;
    let terms = values.mems.as_slice();
    if terms.is_empty() {
        let mems = List::new(alloc);
        return Ok(Args { words, mems });
    }
    let last = terms.len() - 1;
    let others = &terms[..last];
    let mut mems = mems_of(alloc, others, &env)?;
    mems.push(last_memory(alloc, &terms[last], variables))?;
    Ok(Args { words, mems })
}

/// The memory that a term stands for, in the place of the variable that it stands on.
fn last_memory(alloc: Global, t: &Mem, variables: Args) -> ByteMap
    requires { MemInScope (mem_tree t.now) (length variables.words) (length variables.mems) }
    ensures { get result ≡ mem_value (mem_tree t.now) (variables_of variables) }
{
    match t {
        Mem::Var(i) => item_at(alloc, variables.mems, *i),
        Mem::Store(width, m, a, v) => {
            let at = value(a, &variables.env());
            let word = value(v, &variables.env());
            let mut memory = last_memory(alloc, m, variables);
            memory.store(at, *width, word);
            memory
        }
    }
}

/// The memory of that number, of a list of which nothing else is left.
fn item_at(alloc: Global, memories: List<ByteMap>, i: u32) -> ByteMap
    requires { i < length memories }
    ensures { slice_get memories i ≡ Some result }
{
    let mut memories = memories;
    let place = i as usize;
    while let Some(memory) = memories.pop() {
        if memories.len() == place {
            return memory;
        }
    }
    ByteMap::new(alloc)
}

fn words_of(alloc: Global, terms: &[Word], env: &Env) -> Result<List<u64>, NoMemory>
    requires { All (λ t. WordInScope t (length env.now.words.now) (length env.now.mems.now))
        (map word_tree terms.now) }
    ensures { IfOk result (λ list.
        list ≡ map (λ t. word_value t (environment_of env.now)) (map word_tree terms.now)) }
{
    let mut list = List::new(alloc);
    for t in terms {
        list.push(value(t, env))?;
    }
    Ok(list)
}

fn mems_of(alloc: Global, terms: &[Mem], env: &Env) -> Result<List<ByteMap>, NoMemory>
    requires { All (λ t. MemInScope t (length env.now.words.now) (length env.now.mems.now))
        (map mem_tree terms.now) }
    ensures { IfOk result (λ list.
        map get list ≡ map (λ t. mem_value t (environment_of env.now)) (map mem_tree terms.now)) }
{
    let mut list = List::new(alloc);
    for t in terms {
        list.push(memory_of(alloc, t, env)?)?;
    }
    Ok(list)
}
