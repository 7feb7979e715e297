//! Laws of drawn code: of runs through it, and of its flow. These functions do nothing: their
//! contracts are the laws. Each speaks of the definitions alone.

ghost use Rattle.std.specs.Prelude.{◌≡◌, ℕ, ◌+◌, ◌*◌, ◌^◌, ◌%◌, ◌<◌, ◌≤◌, List, [], ◌∷◌, length, false};
ghost use Rattle.rv_words.specs.Bytes.{Bytes};
ghost use Rattle.rv_machine.specs.State.{State};
ghost use Rattle.elf_image.specs.Fault.{IsReadable};
ghost use Rattle.elf_image.specs.Image.{code_of_file, image_of, memory_of_file};
ghost use Rattle.flow_graph.specs.Flow.{Next};
ghost use Rattle.flow_graph.specs.Reach.{IsFault};
ghost use Rattle.flow_graph.specs.Graph.{GraphOf, IsGraphOf};
ghost use Rattle.flow_graph.specs.declared.outside.Outside.{Outside};
ghost use Rattle.loop_forest.specs.Cycles.{TwoEntries};
ghost use Rattle.loop_forest.specs.Forest.{IsForestFault};
ghost use Rattle.code_gen.specs.Pieces.{Pieces};
ghost use Rattle.code_gen.specs.Program.{code, instructions, program_of};
ghost use Rattle.code_gen.specs.Structure.{AreShaped, EachAt, IsWordAt};
ghost use Rattle.code_gen.specs.ElfFile.{elf_of, start};
ghost use Rattle.self_test.specs.Files.{piece_of_words};
ghost use Rattle.self_test.specs.Runs.{PassesThrough, Returns, StartsProgram};

/// The machine comes from the first instruction of pieces to right behind their last one, in no
/// more steps than they take at most. It changes no byte, and of the registers below the counters
/// of these pieces none but x10.
pub fn law_of_pieces()
    ensures { (d a : ℕ) (p : Pieces) (s : State)
        → AreShaped d p
        → d ≤ 4
        → a % 2 ≡ 0
        → a + 4 * length (code d p) < 2 ^ 64
        → s.pc ≡ a
        → EachAt (IsWordAt s.mem a) 0 (code d p)
        → PassesThrough d p a s }
{}

/// A program returns: the last of its steps alone is the return, and none loads or stores.
pub fn law_of_programs()
    ensures { (number size : ℕ) (s : State)
        → size ≤ 600
        → StartsProgram number size s
        → Returns size s }
{}

/// The file of some words is read, and puts the words into memory as code, with no names.
pub fn law_of_files()
    ensures readable { (words : List ℕ) → length words ≤ 2 ^ 20 → IsReadable (elf_of words) }
    ensures image { (words : List ℕ)
        → length words ≤ 2 ^ 20
        → image_of (elf_of words) ≡ record { pieces = piece_of_words words ∷ []; symbols = [] } }
{}

/// The file of a program has the program's words, as code and in memory.
pub fn law_of_program_files()
    ensures code { (number size : ℕ)
        → size ≤ 600
        → EachAt (IsWordAt (code_of_file (elf_of (program_of number size))) start) 0
        (instructions number size) }
    ensures memory { (number size : ℕ)
        → size ≤ 600
        → EachAt (IsWordAt (memory_of_file (elf_of (program_of number size))) start) 0
        (instructions number size) }
{}

/// Code in which a program stands has a graph from the program's first instruction on, and a
/// forest: no instruction that is reached is refused, no cycle has two entries, told by the code or
/// by its graph, and no loop has many exits.
pub fn law_of_program_flow()
    ensures no_fault { (number size : ℕ) (bytes : Bytes) (why : Outside)
        → size ≤ 600
        → EachAt (IsWordAt bytes start) 0 (instructions number size)
        → IsFault false bytes start why
        → ⊥ }
    ensures no_forest_fault { (number size : ℕ) (bytes : Bytes) (g : GraphOf) (why : Outside)
        → size ≤ 600
        → EachAt (IsWordAt bytes start) 0 (instructions number size)
        → IsGraphOf false bytes start g
        → IsForestFault g why
        → ⊥ }
    ensures no_two_entries { (number size : ℕ) (bytes : Bytes) (g : GraphOf)
        → size ≤ 600
        → EachAt (IsWordAt bytes start) 0 (instructions number size)
        → IsGraphOf false bytes start g
        → TwoEntries (Next false bytes) start
        → ⊥ }
{}
