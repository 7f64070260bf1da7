// Names that stand twice in a list.
ghost use Rattle.std.specs.Prelude.{◌≡◌, ◌||◌, ℕ, List, [], not, option_map, IfOk, OnOk};
ghost use Rattle.std.specs.BTreeSet.{contains_text};
ghost use Rattle.std.specs.Str.{str_eq_ignore_ascii_case, str_to_ascii_lowercase};
ghost use Rattle.field_forms.specs.Names.{first_double};

use field_values::memory::Memory;
use field_values::text::Text;
use std::alloc::Global;
use std::collections::BTreeSet;

/// Puts a name in small letters among those that were seen. Whether it wasn't there.
fn put_seen(alloc: Global, seen: &mut BTreeSet<String>, name: &Text) -> Result<bool, Memory>
    ensures new { IfOk result (λ new. new
        ≡ not (contains_text seen.old (str_to_ascii_lowercase name.now))) }
    ensures seen { OnOk result ((other : List ℕ)
        → contains_text seen.new (str_to_ascii_lowercase other)
        ≡ (str_eq_ignore_ascii_case name.now other
        || contains_text seen.old (str_to_ascii_lowercase other))) }
{
    Ok(seen.insert(name.as_str().to_ascii_lowercase(alloc)?)?)
}

/// The first name that is the same as one before it, ASCII case ignored; `None` exactly where no two are. It takes
/// logarithmic time a name.
pub fn first_double(alloc: Global, names: &[Text]) -> Result<Option<&Text>, Memory>
    ensures { IfOk result (λ double. option_map (λ n. n.now) double ≡ first_double [] names.now) }
{
    let mut seen = BTreeSet::new(alloc);
    for name in names {
        if !put_seen(alloc, &mut seen, name)? {
            return Ok(Some(name));
        }
    }
    Ok(None)
}
