//! Laws. Each function only states its law: it does nothing.

ghost use Rattle.std.specs.Prelude.{◌≡◌, ◌≤◌, ◌++◌, ℕ, List, Option, [], Some, None, map};
ghost use Rattle.std.specs.List.{AllByRecursion};
ghost use Rattle.wc_spaces.specs.Standard.Least.{least, least_from};
ghost use Rattle.wc_spaces.specs.Standard.Spaces.{identifier_of, duplicates_after};
ghost use Rattle.wc_spaces.specs.declared.noted.Fault.{Fault};

/// The least fault is none only where there is none, and no fault has a smaller token. Faults may be told in parts, one
/// part after another.
pub fn least_is_least<W>()
    ensures none { (fs : List (Fault W)) → least fs ≡ None → fs ≡ [] }
    ensures least { (fs : List (Fault W)) (f : Fault W)
        → least fs ≡ Some f → AllByRecursion (λ g. f.token ≤ g.token) fs }
    ensures parts { (known : Option (Fault W)) (fs gs : List (Fault W))
        → least_from known (fs ++ gs) ≡ least_from (least_from known fs) gs }
{}

/// What is wrong with declarations is what is wrong with the first of them, and then with the others behind those.
pub fn duplicates_in_parts<W>()
    ensures { (why : W) (before : List (Option (List ℕ))) (ds es : List (Option (ℕ × List ℕ)))
        → duplicates_after why before (ds ++ es)
        ≡ duplicates_after why before ds ++ duplicates_after why (before ++ map identifier_of ds) es }
{}
