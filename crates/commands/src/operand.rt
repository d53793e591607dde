// What a word stands for in a command.
ghost use Rattle.std.specs.Prelude.{◌≡◌, List, ℕ, MatchOption, ⊤};
ghost use Rattle.road.specs.Words.{class_word};
ghost use Rattle.rows.specs.Ends.{end_word, sense_word};
ghost use Rattle.commands.specs.Words.{Spells, choice_word};
ghost use Rattle.commands.specs.Names.{name_word};
ghost use Rattle.limit_names.specs.Names.{limit_word};
ghost use Rattle.commands.specs.Mistakes.{Wanted, MayEnd};
ghost use Rattle.commands.specs.declared.mistake.Expected.{Expected};
ghost use Rattle.commands.specs.declared.mistake.Expected.TheVariants as want;

use crate::mistake::Expected;
use crate::name::Name;
use limit_names::{LimitName, limit_name};
use road::{Class, JerkChoice};
use rows::{End, Sense};
use text::number::number;

pub(crate) trait Operand: Sized {
    // which word says which value
    ghost says: { List ℕ → Self → Type 0 };

    // what a word that says one is called
    ghost expects: { Expected };

    // a word that says one is what is expected
    ghost right: { (w : List ℕ) (x : Self) → says w x → Wanted expects w };

    // the line may not end where one is expected
    ghost needed: { MayEnd expects → ⊥ };

    // what a message says was expected
    fn expected() -> Expected
        ensures { result ≡ expects };

    // the value that the word says
    fn read(word: &str) -> Option<Self>
        ensures { MatchOption result (Wanted expects word.now → ⊥) (λ x. says word.now x) };
}

impl Operand for u32 {
    ghost says = { Spells };

    ghost expects = { want.Number };

    ghost right = { λ w n said. said.0 };

    ghost needed = { λ ends. ends };

    fn expected() -> Expected {
        Expected::Number
    }

    fn read(word: &str) -> Option<u32> {
        number(word)
    }
}

impl Operand for Class {
    ghost says = { λ w class. w ≡ class_word class };

    ghost expects = { want.Class };

    ghost right = { λ w class said. (class, said) };

    ghost needed = { λ ends. ends };

    fn expected() -> Expected {
        Expected::Class
    }

    fn read(word: &str) -> Option<Class> {
        match word {
            "A" => Some(Class::A),
            "M" => Some(Class::M),
            "C" => Some(Class::C),
            _ => None,
        }
    }
}

impl Operand for JerkChoice {
    ghost says = { λ w choice. w ≡ choice_word choice };

    ghost expects = { want.JerkChoice };

    ghost right = { λ w choice said. (choice, said) };

    ghost needed = { λ ends. ends };

    fn expected() -> Expected {
        Expected::JerkChoice
    }

    fn read(word: &str) -> Option<JerkChoice> {
        match word {
            "usual" => Some(JerkChoice::Usual),
            "top" => Some(JerkChoice::Top),
            _ => None,
        }
    }
}

impl Operand for Sense {
    ghost says = { λ w sense. w ≡ sense_word sense };

    ghost expects = { want.Sense };

    ghost right = { λ w sense said. (sense, said) };

    ghost needed = { λ ends. ends };

    fn expected() -> Expected {
        Expected::Sense
    }

    fn read(word: &str) -> Option<Sense> {
        match word {
            "left" => Some(Sense::Left),
            "right" => Some(Sense::Right),
            _ => None,
        }
    }
}

impl Operand for End {
    ghost says = { λ w end. w ≡ end_word end };

    ghost expects = { want.End };

    ghost right = { λ w end said. (end, said) };

    ghost needed = { λ ends. ends };

    fn expected() -> Expected {
        Expected::End
    }

    fn read(word: &str) -> Option<End> {
        match word {
            "entry" => Some(End::Entry),
            "exit" => Some(End::Exit),
            _ => None,
        }
    }
}

impl Operand for LimitName {
    ghost says = { λ w name. w ≡ limit_word name };

    ghost expects = { want.LimitName };

    ghost right = { λ w name said. (name, said) };

    ghost needed = { λ ends. ends };

    fn expected() -> Expected {
        Expected::LimitName
    }

    fn read(word: &str) -> Option<LimitName> {
        limit_name(word)
    }
}

// The name of a file, which any word may be.
pub(crate) struct FileName;

impl Operand for FileName {
    ghost says = { λ w file. ⊤ };

    ghost expects = { want.FileName };

    ghost right = { λ w file said. tt };

    ghost needed = { λ ends. ends };

    fn expected() -> Expected {
        Expected::FileName
    }

    fn read(_: &str) -> Option<FileName> {
        Some(FileName)
    }
}

impl Operand for Name {
    ghost says = { λ w name. w ≡ name_word name };

    ghost expects = { want.Command };

    ghost right = { λ w name said. (name, said) };

    ghost needed = { λ ends. ends };

    fn expected() -> Expected {
        Expected::Command
    }

    fn read(word: &str) -> Option<Name> {
        Name::of(word)
    }
}
