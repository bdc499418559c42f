// Credits by size, as a derivation lists them.
ghost use Rattle.std.specs.Prelude.{◌≡◌, IfOk};
ghost use Rattle.fip_language.specs.declared.limits.TheConstants.{MOST_FIELDS};
ghost use Rattle.derivation_walk.specs.Walked as W;

use derivation_trees::Credit;
use fip_base::plain::NoMemory;
use fip_language::limits::MOST_FIELDS;
use fip_trees::sizes::Sizes;
use std::alloc::Global;

/// As credits in order of their sizes.
pub fn credits_of(alloc: Global, sizes: &Sizes) -> Result<Vec<Credit>, NoMemory>
    ensures credits { IfOk result (λ v. v.items ≡ W.credits sizes.now) }
{
    let mut credits = Vec::new(alloc);
    for size in 1..MOST_FIELDS + 1 {
        let count = sizes.of(size);
        if count > 0 {
            credits.push(Credit {
                size: size as u8,
                count,
            })?;
        }
    }
    Ok(credits)
}

/// Whether there are as many of each size.
pub fn are_same(one: &Sizes, other: &Sizes) -> bool
    ensures same { result ≡ W.same_from one.now other.now 1 MOST_FIELDS }
{
    for size in 1..MOST_FIELDS + 1 {
        if one.of(size) != other.of(size) {
            return false;
        }
    }
    true
}
