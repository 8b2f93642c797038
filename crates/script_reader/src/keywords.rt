//! Keywords: the first words of lines.

ghost use Rattle.std.specs.Prelude.{◌≡◌, drop};
ghost use Rattle.std.specs.Option.{option_map};
ghost use Rattle.script_model.specs.ScriptLines.{keyword_in, keywords};
ghost use Rattle.script_reader.specs.Statements.{keyword_among, keyword_of};

/// The first word of a line.
#[derive(Clone, Copy)]
pub(crate) enum Keyword {
    Program,
    Imports,
    IgnoreImports,
    Save,
    Area,
    Steps,
    Global,
    Device,
    Enter,
    Answer,
    Show,
    Detach,
    Mailbox,
    Strand,
}

pub(crate) fn keyword_in(word: &str) -> Option<Keyword>
    ensures { option_map keyword_of result ≡ keyword_in word.now }
{
    if "program" == word {
        return Some(Keyword::Program);
    }
    if "imports" == word {
        return Some(Keyword::Imports);
    }
    if "ignore-imports" == word {
        return Some(Keyword::IgnoreImports);
    }
    if "save" == word {
        return Some(Keyword::Save);
    }
    behind_save(word)
}

// The keywords behind `save` in the list.
fn behind_save(word: &str) -> Option<Keyword>
    ensures { option_map keyword_of result ≡ keyword_among (drop 4 keywords) word.now }
{
    if "area" == word {
        return Some(Keyword::Area);
    }
    if "steps" == word {
        return Some(Keyword::Steps);
    }
    if "global" == word {
        return Some(Keyword::Global);
    }
    if "device" == word {
        return Some(Keyword::Device);
    }
    behind_device(word)
}

// And behind `device`.
fn behind_device(word: &str) -> Option<Keyword>
    ensures { option_map keyword_of result ≡ keyword_among (drop 8 keywords) word.now }
{
    if "enter" == word {
        return Some(Keyword::Enter);
    }
    if "answer" == word {
        return Some(Keyword::Answer);
    }
    if "show" == word {
        return Some(Keyword::Show);
    }
    if "detach" == word {
        return Some(Keyword::Detach);
    }
    behind_detach(word)
}

// And behind `detach`.
fn behind_detach(word: &str) -> Option<Keyword>
    ensures { option_map keyword_of result ≡ keyword_among (drop 12 keywords) word.now }
{
    if "mailbox" == word {
        return Some(Keyword::Mailbox);
    }
    if "strand" == word {
        return Some(Keyword::Strand);
    }
    None
}
