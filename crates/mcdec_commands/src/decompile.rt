//! The commands `decompile`, `link` and `split`.

ghost use Rattle.std.specs.Prelude.{◌≡◌, ◌<◌, ℕ, All, IfErr, IfOk, IfSome, List as Items, Some, length};
ghost use Rattle.elf_image.specs.Image.{image_of};
ghost use Rattle.mc_shelf.specs.Fault.{Rose, WhereTold};
ghost use Rattle.mc_shelf.specs.Shelf.{TellsName};
ghost use Rattle.group_text.specs.Limits.{IsName};
ghost use Rattle.group_text.specs.Version.{version_of};
ghost use Rattle.proof_text.specs.Proofs.{text_of_proofs_in};
ghost use Rattle.decompiler.specs.Refusals.{IsNoProofBy};
ghost use Rattle.mcdec_commands.specs.Answer.{Gives};
ghost use Rattle.mcdec_commands.specs.DecompileAnswer.{IsRefusedIn, IsTextFor, item_form, listed_of, version_in};
ghost use Rattle.mcdec_answers.specs.Printed.{status};
ghost use Rattle.mcdec_commands.specs.RunAnswer.{IsLoaded};
ghost use Rattle.mcdec_answers.specs.CommandReading.{IsReadDecompile};
ghost use Rattle.mcdec_commands.specs.inner.Decompiling.{FileGives, HasDef, HasItems, IsNoProofIn};
ghost use Rattle.mcdec_commands.specs.inner.Loading.{not_loaded};
ghost use Rattle.mcdec_commands.specs.inner.Writing.{IsTold, WritesOut};
ghost use Rattle.mcdec_commands.specs.inner.Shelves.{ReadsThenWrites, WritesFile};

use crate::load::{LoadFault, load_image, not_read};
use crate::output::write_answer;
use call_link::{LinkWhy, Linked};
use decompiler::{Alone, Item, LinkFault, MakeItems, entry_of, item_at, put_item};
use elf_image::Image;
use mc_shelf::Shelf;
use mcdec_answers::{Answer, Decompile, DecompileAnswer, Form, Listed};
use proof_text::{Version, put_end, put_title};
use rv_words::{Bytes, List, NoMemory, Text};
use stack_split::WithStack;
use std::alloc::Global;

/// What is made before the output file is touched: its text, and what is told of each name.
struct Written {
    text: Bytes,
    listed: List<Listed>,
}

/// The answer to `decompile`, `link` or `split`.
pub fn answer_decompile<S: Shelf>(alloc: Global, d: &Decompile<'_>, shelf: &mut S) -> Answer
    requires { All IsName d.now.names }
    ensures gives { (ws : Items (Items ℕ))
        → IsReadDecompile ws d.now
        → Gives (S.contents shelf.old) ws (Rose (S.read_faults shelf.old) (S.read_faults shelf.new))
        (Rose (S.write_faults shelf.old) (S.write_faults shelf.new)) result }

    ensures written { WhereTold (S.contents shelf.old) (S.contents shelf.new)
        (WritesOut (λ files. IsTextFor d.now.form files d.now.elf.now d.now.names) d.now.out.now
        result) }
    ensures shelf { ReadsThenWrites S.contents S.read_faults S.write_faults S.IsSure
        (status result ≡ 5) (λ told. TellsName told d.now.elf.now) shelf.old shelf.new }
{
    match load_image(alloc, shelf, d.elf) {
        Ok(image) => decompile_image(alloc, &image, d, shelf),
        Err(fault) => not_loaded(fault),
    }
}

/// The answer where there is no image of the ELF file.
fn not_loaded(fault: LoadFault) -> Answer
    ensures answer { result
        ≡ not_loaded (Answer.Decompile DecompileAnswer.OverLimit)
        (λ why. Answer.Decompile (DecompileAnswer.Unreadable why)) fault }
    ensures refused { status result ≡ 0 → ⊥ }
    ensures no_fault { status result ≡ 5 → ⊥ }
{
    match fault {
        LoadFault::Unread(end) => not_read(end, Answer::Decompile(DecompileAnswer::OverLimit)),
        LoadFault::Unreadable(why) => Answer::Decompile(DecompileAnswer::Unreadable(why)),
    }
}

/// The answer where the ELF file put this into memory.
fn decompile_image<S: Shelf>(
    alloc: Global,
    image: &Image,
    d: &Decompile<'_>,
    shelf: &mut S,
) -> Answer
    requires names { All IsName d.now.names }
    requires image { (file : Items ℕ) × IsLoaded file × (image.now ≡ image_of file) }
    ensures gives { (file : Items ℕ)
        → IsLoaded file
        → image.now ≡ image_of file
        → FileGives d.now.form file d.now.names result }

    ensures written { (file : Items ℕ)
        → IsLoaded file
        → image.now ≡ image_of file
        → IfSome (S.contents shelf.old) (λ files. files d.now.elf.now ≡ Some file)
        → WhereTold (S.contents shelf.old) (S.contents shelf.new)
        (WritesOut (λ files. IsTextFor d.now.form files d.now.elf.now d.now.names) d.now.out.now
        result) }
    ensures shelf { WritesFile S.contents S.read_faults S.write_faults S.IsSure (status result ≡ 5)
        IsTold shelf.old shelf.new }
{
    match text_of_names(alloc, image, d) {
        Ok(Written { text, listed }) => {
            let told = Answer::Decompile(DecompileAnswer::Decompiled(d.form, listed));
            write_answer(shelf, d.out, text.as_slice(), told)
        }
        Err(LinkFault::Refused { name, why }) => {
            refuse(alloc, d.form, d.names.as_slice(), name, why)
        }
        Err(LinkFault::NoMemory) => Answer::NoMemory,
    }
}

/// The text of the names' items, and what is told of them: of each function by itself, with those
/// that it calls, or with a memory for its stack.
fn text_of_names(alloc: Global, image: &Image, d: &Decompile<'_>) -> Result<Written, LinkFault>
    requires names { All IsName d.now.names }
    requires image { (file : Items ℕ) × (image.now ≡ image_of file) }
    ensures items { (file : Items ℕ)
        → image.now ≡ image_of file
        → IfOk result (λ written. HasItems (item_form d.now.form) file d.now.names
        (text_of_proofs_in (version_in d.now.form)) written.text written.listed) }
    ensures refused { (file : Items ℕ)
        → image.now ≡ image_of file
        → IfErr result (IsNoProofIn d.now.form file d.now.names) }
{
    let names = d.names.as_slice();
    match d.form {
        Form::Alone => text_of_items(alloc, image, names, &Alone, Version::One),
        Form::Linked => text_of_items(alloc, image, names, &Linked, Version::Three),
        Form::Split => text_of_items(alloc, image, names, &WithStack, Version::Four),
    }
}

/// The text of an item for each name, in that version, and what is told of them. Of the items one
/// is held at a time.
fn text_of_items<M: MakeItems>(
    alloc: Global,
    image: &Image,
    names: &[Text],
    form: &M,
    version: Version,
) -> Result<Written, LinkFault>
    requires names { All IsName names.now }
    requires image { (file : Items ℕ) × (image.now ≡ image_of file) }
    requires version { version_of version ≡ M.form.version }
    ensures items { (file : Items ℕ)
        → image.now ≡ image_of file
        → IfOk result (λ written. HasItems M.form file names.now
        (text_of_proofs_in (version_of version)) written.text written.listed) }
    ensures refused { (file : Items ℕ)
        → image.now ≡ image_of file
        → IfErr result (IsNoProofBy M.form file names.now) }
{
    let mut text = List::new(alloc);
    let mut listed = List::new(alloc);
    put_title(&mut text, version)?;
    let mut i = 0;
    'names: while i < names.len() {
        let item = item_at(alloc, image, names, i, form)?;
        put_item(&mut text, version, &item)?;
        listed.push(told_of(item))?;
        i += 1;
    }
    put_end(&mut text)?;
    Ok(Written { text, listed })
}

/// What is told of an item.
fn told_of(item: Item) -> Listed
    requires { HasDef item }
    ensures { result ≡ listed_of item.group.name item }
{
    Listed {
        entry: entry_of(&item),
        reached: item.reached,
        defs: item.group.defs.len() as u64,
        name: item.group.name,
    }
}

/// The answer where the name of that number has this fault.
fn refuse(alloc: Global, form: Form, names: &[Text], number: u64, why: LinkWhy) -> Answer
    requires { number < length names.now }
    ensures gives { (file : Items ℕ)
        → IsLoaded file
        → IsRefusedIn form file names.now number why
        → FileGives form file names.now result }
    ensures refused { status result ≡ 0 → ⊥ }
    ensures no_fault { status result ≡ 5 → ⊥ }
{
    match Text::from_slice(alloc, names[number as usize].as_slice()) {
        Ok(name) => Answer::Decompile(DecompileAnswer::Refused(name, why)),
        Err(NoMemory) => Answer::NoMemory,
    }
}
