// The calling codes of countries, in a table that is built once of pairs.
ghost use Rattle.std.specs.Prelude.{◌≡◌, ℕ, ◌^◌, ◌<◌, IfErr, IfOk, List, is_none, length, map};
ghost use Rattle.std.specs.Prelude.{option_map, position};
ghost use Rattle.std.specs.Cmp.Lexicographic.{slice_cmp};
ghost use Rattle.std.specs.List.{All};
ghost use Rattle.std.specs.Ordering.{nat_cmp};
ghost use Rattle.zv_hash.specs.declared.error.HashError.TheVariants.{Repeated};
ghost use Rattle.zv_hashmap.specs.Building.{IsRepeat};
ghost use Rattle.zv_hashmap.specs.Hashed.{hashed_text};
ghost use Rattle.zv_hashmap.specs.Table.{found};
ghost use Rattle.zv_map.specs.Maps.{keys_of, look_up};
ghost use Rattle.zv_ule.specs.Views.{element_of};

use std::alloc::Global;
use zv_hash::HashError;
use zv_hashmap::ZeroHashMap;
use zv_ule::{StrULE, VarRef};

/// A table from a country to its calling code.
pub type Codes<'a> = ZeroHashMap<'a, StrULE, StrULE>;

/// The table of countries and their codes. It has for each country, listed or not, what the list
/// has, and is refused where a country is listed twice.
pub fn build_codes(alloc: Global, list: &[(&str, &str)]) -> Result<Codes<'static>, HashError>
    requires countries { All (λ p. length p.0.now < 2 ^ 64) list.now }
    requires codes { All (λ p. length p.1.now < 2 ^ 64) list.now }
    ensures codes { let given = map (λ p. (p.0.now, p.1.now)) list.now in
        IfOk result (λ codes. (country : List ℕ) →
        found (slice_cmp nat_cmp) hashed_text codes country
        ≡ look_up (slice_cmp nat_cmp) given country) }
    ensures repeated { let given = map (λ p. (p.0.now, p.1.now)) list.now in
        IfErr result (λ e. (first second : ℕ) → e ≡ Repeated first second →
        IsRepeat (slice_cmp nat_cmp) (keys_of given) first second) }
{
    Codes::try_from_pairs(alloc, list)
}

/// The code of a country, read where it lies in the table.
pub fn code_of<'t>(codes: &'t Codes<'_>, country: &str) -> Option<VarRef<'t, StrULE>>
    ensures { option_map element_of result ≡
        found (slice_cmp nat_cmp) hashed_text codes.now country.now }
{
    codes.get(&country)
}

/// The place of the first of some countries that a list has no code for. The list becomes a table,
/// in which each country is looked up by one comparison.
pub fn first_unlisted(
    alloc: Global,
    list: &[(&str, &str)],
    countries: &[&str],
) -> Result<Option<usize>, HashError>
    requires countries { All (λ p. length p.0.now < 2 ^ 64) list.now }
    requires codes { All (λ p. length p.1.now < 2 ^ 64) list.now }
    ensures { let given = map (λ p. (p.0.now, p.1.now)) list.now in
        IfOk result (λ place. place ≡ position
        (λ country. is_none (look_up (slice_cmp nat_cmp) given country.now)) countries.now) }
{
    let codes = build_codes(alloc, list)?;
    let place = countries
        .iter()
        .position(|country| code_of(&codes, country).is_none());
    Ok(place)
}
