// Locales in the order in which they are wanted.
ghost use Rattle.std.specs.Prelude.{◌≡◌, ◌↔◌, count_by, IfSome, IsSome, IsTrue, length};
ghost use Rattle.std.specs.Char.{is_ascii_alphanumeric};
ghost use Rattle.std.specs.List.{list_all};
ghost use Rattle.zv_locale.specs.Names.{tries};
ghost use Rattle.zv_locale.specs.Wanted.{is_cut, is_locale, is_subtag, is_wanted, locales};

// The most locales that a text has.
const MOST: usize = 16;

// Whether a text has ASCII letters and digits alone.
fn is_alphanumeric(text: &str) -> bool
    ensures { result ≡ list_all is_ascii_alphanumeric text.now }
{
    text.bytes().all(|b| b.is_ascii_alphanumeric())
}

// Whether a text is a subtag.
fn is_subtag(text: &str) -> bool
    ensures { result ≡ is_subtag text.now }
{
    matches!(text.len(), 1..=8) && is_alphanumeric(text)
}

// Whether a text is a locale.
fn is_locale(text: &str) -> bool
    ensures { result ≡ is_locale text.now }
{
    text.split('-').all(is_subtag)
}

// How many pieces of a text there are between commas.
fn count_locales(text: &str) -> usize
    ensures { result ≡ length (locales text.now) }
{
    text.split(',').count()
}

// Whether each of them is a locale.
fn are_locales(text: &str) -> bool
    ensures { result ≡ list_all is_locale (locales text.now) }
{
    text.split(',').all(is_locale)
}

// Whether a text is a wanted text.
fn is_wanted(text: &str) -> bool
    ensures { result ≡ is_wanted text.now }
{
    count_locales(text) <= MOST && are_locales(text)
}

// How many places there are where a locale or a subtag ends before another.
fn count_cuts(text: &str) -> usize
    ensures { result ≡ count_by is_cut text.now }
{
    text.bytes().filter(|b| *b == b'-' || *b == b',').count()
}

/// Locales, the most wanted first: up to 16 of them, joined by `,`. A locale is one or more subtags
/// joined by `-`, each of 1 to 8 ASCII letters or digits.
#[derive(Clone, Copy, Debug)]
pub struct Wanted<'t> {
    pub(crate) text: &'t str,
    ghost wanted: { IsTrue (is_wanted text.now) },
}

impl<'t> Wanted<'t> {
    ghost use Rattle.zv_locale.specs.Texts.{text_of};

    /// The locales of a text, or `None` where it is no wanted text.
    pub fn parse(text: &'t str) -> Option<Wanted<'t>>
        ensures wanted { IsSome result ↔ IsTrue (is_wanted text.now) }
        ensures text { IfSome result (λ w. text_of w ≡ text.now) }
    {
        if is_wanted(text) {
            return Some(Wanted { text });
        }
        None
    }

    // The locales of a text that is known to be a wanted text.
    pub(crate) fn of(text: &'t str) -> Wanted<'t>
        requires { IsTrue (is_wanted text.now) }
        ensures { text_of result ≡ text.now }
    {
        Wanted { text }
    }

    /// How many names are tried: each locale and what is left of it as its last subtags are
    /// dropped, and the root.
    #[tactic(auto, using(crate::proofs::Cuts::length_of_tries))]
    pub fn tries(self) -> usize
        ensures { result ≡ length (tries (text_of self.entry)) }
    {
        count_cuts(self.text) + 2
    }
}
