// Texts for readers, each in the language that the reader prefers.
ghost use Rattle.std.specs.Prelude.{◌≡◌, option_map};
ghost use Rattle.zv_locale.specs.Provided.{provided};
ghost use Rattle.zv_locale.specs.Texts.{name_and_value, text_of};
ghost use Rattle.zv_callers.specs.Readers.{preferred};

use zv_locale::{Provided, Wanted, provide};
use zv_map2d::ImageMap;

// The locales of a text, or the root where it is no wanted text.
fn preferred(text: &str) -> Wanted<'_>
    ensures { text_of result ≡ preferred text.now }
{
    if let Some(wanted) = Wanted::parse(text) {
        return wanted;
    }
    let Some(root) = Wanted::parse("und") else {
        unreachable!();
    };
    root
}

/// The best text of a name for a reader who prefers these locales, such as `de-AT,en`. Whoever
/// sends no locales, or no such text, reads the root's.
pub fn text_for<'l>(texts: &'l ImageMap<'_>, name: &str, locales: &'l str) -> Option<Provided<'l>>
    ensures { option_map name_and_value result
        ≡ provided texts.now.rows name.now (preferred locales.now) }
{
    provide(texts, name, preferred(locales))
}
