//! Laws of the definitions of caches: each is the contract of a function that does nothing.
ghost use Rattle.runtime_cache.specs.Merged.{MergedCachesAreTheStores};

/// A cache that has the stores' sizes, and equals them outside of what ranges cover, is the stores once it has taken what they cover.
pub fn merged_caches_are_the_stores()
    ensures { MergedCachesAreTheStores }
{}
