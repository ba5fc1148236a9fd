// The names that are tried, one after another.
ghost use Rattle.std.specs.Prelude.{◌≡◌, ◌∷◌, ◌++◌, MatchOption, [], if◌then◌else◌};
ghost use Rattle.std.specs.Option.{option_copied, option_map_or};
ghost use Rattle.zv_locale.specs.Names.{names_of};
ghost use Rattle.zv_locale.specs.Wanted.{locales};

// What is tried after the names of a locale.
#[derive(Clone, Copy)]
pub(crate) enum After<'t> {
    // The locales of a text, and the root.
    Locales(&'t str),
    // The root.
    Root,
    // Nothing.
    Nothing,
}

// A name that is tried, and what is tried after it.
#[derive(Clone, Copy)]
pub(crate) struct Try<'t> {
    pub(crate) name: &'t str,
    after: After<'t>,
}

// A locale without its last subtag, if it has others.
fn without_last(locale: &str) -> Option<&str>
    ensures { names_of locale.now ≡ locale.now ∷ option_map_or names_of (option_copied result) [] }
{
    match locale.rsplit_once('-') {
        Some((front, _)) => Some(front),
        None => None,
    }
}

impl<'t> Try<'t> {
    ghost use Rattle.zv_locale.specs.Texts.{left};
    ghost use Rattle.zv_locale.specs.Names.{tries};

    // The first name that is tried for a text.
    pub(crate) fn first(text: &'t str) -> Try<'t>
        ensures { left result ≡ tries text.now }
    {
        match text.split_once(',') {
            Some((locale, rest)) => Try {
                name: locale,
                after: After::Locales(rest),
            },
            None => Try {
                name: text,
                after: After::Root,
            },
        }
    }

    // The name that is tried after this one.
    pub(crate) fn next(self) -> Option<Try<'t>>
        ensures { left self.entry ≡ self.entry.name.now ∷ option_map_or left result [] }
    {
        if let Some(name) = without_last(self.name) {
            return Some(Try {
                name,
                after: self.after,
            });
        }
        match self.after {
            After::Locales(text) => Some(Try::first(text)),
            After::Root => Some(Try {
                name: "und",
                after: After::Nothing,
            }),
            After::Nothing => None,
        }
    }
}
