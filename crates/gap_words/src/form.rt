//! The form of the words after the program's name.
ghost use Rattle.std.specs.Prelude.{◌≡◌, IfSome, map};
ghost use Rattle.std.specs.String.{string_bytes};
ghost use Rattle.gap_words.specs.Forms.{solve, verify, files_form, word_at, quick_of, demo_of, are_files, are_two, quick_form, demo_form, check_form, upgrade_form, form, form_value, AreInRange, IsDemoInRange, IsFormInRange};

use crate::number::{Held, held_within, number_of, number_within};
use gap_base::Weight;

/// What the words ask for, with the names of the files that the command reads and writes.
#[derive(Clone, Copy, PartialEq, Eq, Debug)]
pub enum Form<'a> {
    /// They are in the form of no command.
    Faulty,
    /// Those of `quick`: PORT, and the values of the others.
    Quick(&'a str, QuickWords),
    /// Those of `solve`.
    Solve {
        port: &'a str,
        job: &'a str,
        cert: &'a str,
    },
    /// Those of `check`: CERT.
    Check(&'a str),
    /// Those of `verify`.
    Verify {
        port: &'a str,
        job: &'a str,
        cert: &'a str,
    },
    /// Those of `demo`.
    Demo(DemoWords),
    /// Those of `upgrade`.
    Upgrade {
        cert: &'a str,
        new: &'a str,
    },
}

/// The values of the words HELD LOTS P Q NODES of `quick`.
#[derive(Clone, Copy, PartialEq, Eq, Debug)]
pub struct QuickWords {
    /// How many assets are to be held at least, 1 to 256.
    pub held: u16,
    /// How many at most, from `held` to 256.
    pub held_most: u16,
    /// How many lots the budget has, 1 to 10000.
    pub lots: u16,
    /// The weight P/Q of risk, with P at most Q, and Q 1 to 100.
    pub weight: Weight,
    /// How many nodes the search may split, 0 to 100000.
    pub nodes: u32,
}

/// The values of the words NUMBER N HELD LOTS NODES of `demo`.
#[derive(Clone, Copy, PartialEq, Eq, Debug)]
pub struct DemoWords {
    /// The number that generates the market, below 10^18.
    pub number: u64,
    /// How many assets it has, 2 to 256.
    pub n: u16,
    /// How many assets are to be held, 1 to `n`.
    pub held: u16,
    /// How many lots the budget has, 1 to 10000.
    pub lots: u16,
    /// How many nodes the search may split for each weight, 0 to 100000.
    pub nodes: u32,
}

/// The form of the words. It takes no memory, and reads each word a few times.
#[tactic(auto, unfolding(crate::specs::Forms::form, crate::specs::Forms::files_form))]
pub fn form_of(words: &[String]) -> Form<'_>
    ensures form { form_value result ≡ form (map string_bytes words.now) }
    ensures ranges { IsFormInRange (form_value result) }
{
    let command = word(words, 0);
    if command == "quick" {
        return quick_form(words);
    }
    if command == "solve" {
        return solve_form(words);
    }
    if command == "check" {
        return check_form(words);
    }
    if command == "verify" {
        return verify_form(words);
    }
    if command == "demo" {
        return demo_form(words);
    }
    if command == "upgrade" {
        upgrade_form(words)
    } else {
        Form::Faulty
    }
}

/// The word at a place, counted from 0; empty where there is none.
fn word(words: &[String], place: usize) -> &str
    ensures { result.now ≡ word_at (map string_bytes words.now) place }
{
    match words.get(place) {
        Some(word) => word.as_str(),
        None => "",
    }
}

/// What the words of `quick` ask for.
#[tactic(auto, unfolding(crate::specs::Forms::quick_form))]
fn quick_form(words: &[String]) -> Form<'_>
    ensures form { form_value result ≡ quick_form (map string_bytes words.now) }
    ensures ranges { IsFormInRange (form_value result) }
{
    match quick_words(words) {
        Some(asked) => Form::Quick(word(words, 1), asked),
        None => Form::Faulty,
    }
}

/// The values of the words of `quick`, where they are in form.
#[tactic(auto, unfolding(crate::specs::Forms::quick_of))]
fn quick_words(words: &[String]) -> Option<QuickWords>
    ensures value { result ≡ quick_of (map string_bytes words.now) }
    ensures ranges { IfSome result AreInRange }
{
    if words.len() != 7 || word(words, 1).is_empty() {
        return None;
    }
    let Held { fewest, most } = held_within(word(words, 2))?;
    let lots = number_within(word(words, 3), 1, 10_000)?;
    let q = number_within(word(words, 5), 1, 100)?;
    let p = number_within(word(words, 4), 0, q)?;
    let nodes = number_within(word(words, 6), 0, 100_000)?;
    Some(QuickWords {
        held: fewest,
        held_most: most,
        lots: lots as u16,
        weight: Weight {
            p: p as u8,
            q: q as u8,
        },
        nodes,
    })
}

/// Whether the words behind the first are the names PORT JOB CERT, with CERT spelled like neither of the others.
#[tactic(auto, unfolding(crate::specs::Forms::are_files))]
fn are_files(words: &[String]) -> bool
    ensures { result ≡ are_files (map string_bytes words.now) }
{
    words.len() == 4
        && !word(words, 1).is_empty()
        && !word(words, 2).is_empty()
        && !word(words, 3).is_empty()
        && word(words, 3) != word(words, 1)
        && word(words, 3) != word(words, 2)
}

/// What the words of `solve` ask for.
#[tactic(auto, unfolding(crate::specs::Forms::files_form, crate::specs::Forms::are_files))]
fn solve_form(words: &[String]) -> Form<'_>
    ensures form { form_value result ≡ files_form solve (map string_bytes words.now) }
    ensures ranges { IsFormInRange (form_value result) }
{
    if !are_files(words) {
        return Form::Faulty;
    }
    Form::Solve {
        port: word(words, 1),
        job: word(words, 2),
        cert: word(words, 3),
    }
}

/// What the words of `check` ask for.
#[tactic(auto, unfolding(crate::specs::Forms::check_form))]
fn check_form(words: &[String]) -> Form<'_>
    ensures form { form_value result ≡ check_form (map string_bytes words.now) }
    ensures ranges { IsFormInRange (form_value result) }
{
    if words.len() == 2 && !word(words, 1).is_empty() {
        Form::Check(word(words, 1))
    } else {
        Form::Faulty
    }
}

/// Whether the words behind the first are the names CERT NEW, with NEW spelled unlike CERT.
#[tactic(auto, unfolding(crate::specs::Forms::are_two))]
fn are_two(words: &[String]) -> bool
    ensures { result ≡ are_two (map string_bytes words.now) }
{
    words.len() == 3
        && !word(words, 1).is_empty()
        && !word(words, 2).is_empty()
        && word(words, 2) != word(words, 1)
}

/// What the words of `upgrade` ask for.
#[tactic(auto, unfolding(crate::specs::Forms::upgrade_form, crate::specs::Forms::are_two))]
fn upgrade_form(words: &[String]) -> Form<'_>
    ensures form { form_value result ≡ upgrade_form (map string_bytes words.now) }
    ensures ranges { IsFormInRange (form_value result) }
{
    if !are_two(words) {
        return Form::Faulty;
    }
    Form::Upgrade {
        cert: word(words, 1),
        new: word(words, 2),
    }
}

/// What the words of `verify` ask for.
#[tactic(auto, unfolding(crate::specs::Forms::files_form, crate::specs::Forms::are_files))]
fn verify_form(words: &[String]) -> Form<'_>
    ensures form { form_value result ≡ files_form verify (map string_bytes words.now) }
    ensures ranges { IsFormInRange (form_value result) }
{
    if !are_files(words) {
        return Form::Faulty;
    }
    Form::Verify {
        port: word(words, 1),
        job: word(words, 2),
        cert: word(words, 3),
    }
}

/// What the words of `demo` ask for.
#[tactic(auto, unfolding(crate::specs::Forms::demo_form))]
fn demo_form(words: &[String]) -> Form<'_>
    ensures form { form_value result ≡ demo_form (map string_bytes words.now) }
    ensures ranges { IsFormInRange (form_value result) }
{
    match demo_words(words) {
        Some(asked) => Form::Demo(asked),
        None => Form::Faulty,
    }
}

/// The values of the words of `demo`, where they are in form.
#[tactic(auto, unfolding(crate::specs::Forms::demo_of))]
fn demo_words(words: &[String]) -> Option<DemoWords>
    ensures value { result ≡ demo_of (map string_bytes words.now) }
    ensures ranges { IfSome result IsDemoInRange }
{
    if words.len() != 6 {
        return None;
    }
    let number = number_of(word(words, 1), 18)?;
    let n = number_within(word(words, 2), 2, 256)?;
    let held = number_within(word(words, 3), 1, n)?;
    let lots = number_within(word(words, 4), 1, 10_000)?;
    let nodes = number_within(word(words, 5), 0, 100_000)?;
    Some(DemoWords {
        number,
        n: n as u16,
        held: held as u16,
        lots: lots as u16,
        nodes,
    })
}
