// What statements mean.
ghost use Rattle.std.specs.Prelude.{List, [], ◌++◌, ℕ};
ghost use Rattle.page_spec.specs.PageMap.{PageMap};

/// What the statements of a store do to its page maps. It has no calls.
pub trait Means {
    /// Which maps are sound, for an opening that found the first map.
    ghost sound: { PageMap → PageMap → Type 0 };

    /// For an opening that found the first map: the texts of these statements lead from the one map to the other.
    ghost leads: { PageMap → PageMap → List (List ℕ) → PageMap → Type 0 };

    /// No statements lead from a sound map to itself.
    ghost rests: { (first pages : PageMap) → sound first pages → leads first pages [] pages };

    /// What some statements and then others lead to, all of them lead to.
    ghost joins: { (first before between after : PageMap) (some others : List (List ℕ)) → leads first before some between
        → leads first between others after → leads first before (some ++ others) after };
}
