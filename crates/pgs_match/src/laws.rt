//! Laws on searches along plans, from a variable to which an element is bound, and on the elements that are reached from an element. The
//! functions do nothing; their contracts are the statements.

ghost use Rattle.std.specs.Prelude.{fold, nat_lt, ◌||◌, ◌==◌, ◌≡◌, ◌↔◌, ◌+◌, ◌*◌, ◌^◌, ◌<◌, ◌≤◌, ℕ, Bool, true, false, List, [], length, slice_get, Some, Contains};
ghost use Rattle.std.specs.Option.{option_map_or};
ghost use Rattle.std.specs.List.{list_any, list_all, All};
ghost use Rattle.pgs_base.specs.declared.element.Elem.{Elem};
ghost use Rattle.pgs_base.specs.Graph.{Graph, is_graph};
ghost use Rattle.pgs_base.specs.Order.{ascends, elem_cmp};
ghost use Rattle.pgs_syntax.specs.declared.key.Key.{Key};
ghost use Rattle.pgs_syntax.specs.declared.pattern.Expr.{Expr};
ghost use Rattle.pgs_syntax.specs.declared.pattern.Pattern.{Pattern};
ghost use Rattle.pgs_syntax.specs.declared.resolved.Resolved.{Resolved};
ghost use Rattle.pgs_syntax.specs.KeyValues.{starts_at, key_values};
ghost use Rattle.pgs_syntax.specs.Matches.{is_match, matches};
ghost use Rattle.pgs_syntax.specs.Valid.{read_var, edge_count, is_valid_pattern, is_valid_key};
ghost use Rattle.pgs_match.specs.declared.step.Step.{Step};
ghost use Rattle.pgs_match.specs.Plans.{is_plan};
ghost use Rattle.pgs_match.specs.declared.bindings.Bound.{Bound};
ghost use Rattle.pgs_match.specs.Bounds.{with_bound, nothing_bound, stands_at};
ghost use Rattle.pgs_match.specs.Branches.{is_tree, has_no_cycle, can_be_given, asked_most, walked_from};
ghost use Rattle.pgs_match.specs.Routes.{on_way, off_way, whole, routes, with_tuple, way_most, routed_from};
ghost use Rattle.pgs_match.specs.Near.{IsSparse, IsNearTo};
ghost use Rattle.pgs_match.specs.Reached.{reached};
ghost use Rattle.pgs_match.specs.Search.{completions, can_complete, gathered, most_steps};
ghost use Rattle.pgs_match.specs.Tests.{admitted};

/// A search along a plan from a variable and an element comes to an end exactly where some match has the element at the variable.
pub fn a_search_finds_a_match_where_there_is_one()
    ensures { (resolved : Resolved) (g : Graph) (pattern : Pattern) → is_valid_pattern pattern ≡ true → (var : ℕ) → var < length pattern.edge_vars →
        (plan : List Step) → is_plan pattern var plan ≡ true → (elem : Elem) →
        option_map_or (λ bound. can_complete resolved g pattern.atoms plan (with_bound nothing_bound var bound)) (admitted resolved g pattern var elem) false
        ≡ list_any (stands_at var elem) (matches resolved g pattern) }
{}

/// Where a plan goes along each end of each edge place, all that hangs on a variable can be given an element exactly where some match
/// has the variable's element there.
pub fn a_tree_has_a_match_where_its_root_can_be_given()
    ensures { (resolved : Resolved) (g : Graph) (pattern : Pattern) → is_graph g ≡ true → is_valid_pattern pattern ≡ true → (var : ℕ) →
        var < length pattern.edge_vars → (plan : List Step) → is_plan pattern var plan ≡ true → is_tree pattern.atoms plan ≡ true → (elem : Elem) (bound : Bound) →
        admitted resolved g pattern var elem ≡ Some bound →
        can_be_given resolved g pattern.atoms plan var bound ≡ list_any (stands_at var elem) (matches resolved g pattern) }
{}

/// Where a valid pattern has no cycle, each plan of it has a step for each end of each edge place.
pub fn a_plan_of_a_pattern_without_cycles_is_a_tree()
    ensures { (pattern : Pattern) → is_valid_pattern pattern ≡ true → has_no_cycle pattern ≡ true → (var : ℕ) → var < length pattern.edge_vars →
        (plan : List Step) → is_plan pattern var plan ≡ true → is_tree pattern.atoms plan ≡ true }
{}

/// Asking for each branch by itself takes few look-ups: within the bound of any search where no node near the element has many edges,
/// and at most 80 times the sum of the degrees plus 2 over the walks along the plan. Three are taken before it begins.
pub fn branches_add()
    ensures sparse { (resolved : Resolved) (g : Graph) (pattern : Pattern) → is_graph g ≡ true → is_valid_pattern pattern ≡ true → (var : ℕ) →
        var < length pattern.edge_vars → (plan : List Step) → is_plan pattern var plan ≡ true → (elem : Elem) (bound : Bound) →
        admitted resolved g pattern var elem ≡ Some bound → (edges most : ℕ) → edge_count pattern.edge_vars ≤ edges → IsSparse g edges elem most →
        3 + asked_most resolved g pattern.atoms plan var bound ≤ 16 * (most + 2) ^ (edges + 1) }
    ensures walks { (resolved : Resolved) (g : Graph) (pattern : Pattern) → is_graph g ≡ true → is_valid_pattern pattern ≡ true → (var : ℕ) →
        var < length pattern.edge_vars → (plan : List Step) → is_plan pattern var plan ≡ true → (elem : Elem) (bound : Bound) →
        admitted resolved g pattern var elem ≡ Some bound →
        3 + asked_most resolved g pattern.atoms plan var bound ≤ 80 * walked_from resolved g pattern plan var elem }
{}

/// What a search along a plan of the descriptor gathers from an element are the key values of the element.
pub fn what_a_search_gathers_are_the_key_values()
    ensures { (resolved : Resolved) (g : Graph) (key : Key) → is_valid_key key ≡ true → 0 < length key.descriptor.edge_vars →
        (plan : List Step) → is_plan key.descriptor 0 plan ≡ true → (elem : Elem) →
        option_map_or (λ bound. gathered resolved g key.descriptor.atoms key.exprs plan (with_bound nothing_bound 0 bound) [])
        (admitted resolved g key.descriptor 0 elem) [] ≡ key_values resolved g key elem }
{}

/// A search from an element takes few look-ups and comes to few ends, where no node near the element has many edges and each end takes
/// at most 16 look-ups. Three are taken before it begins.
pub fn a_search_is_short_where_few_edges_are_near()
    ensures steps { (resolved : Resolved) (g : Graph) (pattern : Pattern) → is_graph g ≡ true → is_valid_pattern pattern ≡ true → (var : ℕ) →
        var < length pattern.edge_vars → (plan : List Step) → is_plan pattern var plan ≡ true → (elem : Elem) (bound : Bound) →
        admitted resolved g pattern var elem ≡ Some bound → (edges most last : ℕ) → edge_count pattern.edge_vars ≤ edges → IsSparse g edges elem most → last ≤ 16 →
        3 + most_steps resolved g pattern.atoms last plan (with_bound nothing_bound var bound) ≤ 16 * (most + 2) ^ (edges + 1) }
    ensures ends { (resolved : Resolved) (g : Graph) (pattern : Pattern) → is_graph g ≡ true → is_valid_pattern pattern ≡ true → (var : ℕ) →
        var < length pattern.edge_vars → (plan : List Step) → is_plan pattern var plan ≡ true → (elem : Elem) (bound : Bound) →
        admitted resolved g pattern var elem ≡ Some bound → (edges most : ℕ) → edge_count pattern.edge_vars ≤ edges → IsSparse g edges elem most →
        length (completions resolved g pattern.atoms plan (with_bound nothing_bound var bound)) ≤ (most + 2) ^ edges }
{}

/// What is reached ascends strictly: each element stands once, in order.
pub fn what_is_reached_ascends()
    ensures { (resolved : Resolved) (g : Graph) (pattern : Pattern) (var : ℕ) (elem : Elem) → is_graph g ≡ true →
        ascends elem_cmp (reached resolved g pattern var elem) ≡ true }
{}

/// What is reached from an element are exactly the elements that variable 0 takes in the matches in which the variable takes the element.
pub fn what_is_reached_is_by_matches()
    ensures { (resolved : Resolved) (g : Graph) (pattern : Pattern) (var : ℕ) (elem first : Elem) →
        Contains (reached resolved g pattern var elem) first
        ↔ ((elems : List Elem) × (is_match resolved g pattern elems ≡ true) × (stands_at var elem elems ≡ true) × (starts_at first elems ≡ true)) }
{}

/// The elements that are reached from an element lie within as many edges of it as the pattern has edge variables, and they are few
/// where no node near it has many edges.
pub fn what_is_reached_is_near_and_few()
    ensures near { (resolved : Resolved) (g : Graph) (pattern : Pattern) → is_valid_pattern pattern ≡ true → (var : ℕ) → var < length pattern.edge_vars →
        (elem : Elem) (edges : ℕ) → edge_count pattern.edge_vars ≤ edges → All (IsNearTo g edges elem) (reached resolved g pattern var elem) }
    ensures few { (resolved : Resolved) (g : Graph) (pattern : Pattern) → is_graph g ≡ true → is_valid_pattern pattern ≡ true → (var : ℕ) →
        var < length pattern.edge_vars → (elem : Elem) (edges most : ℕ) → edge_count pattern.edge_vars ≤ edges → IsSparse g edges elem most →
        length (reached resolved g pattern var elem) ≤ (most + 2) ^ edges }
{}

/// The tuples under the routes to the variables that expressions take, where what hangs off the way is asked for and no more, are those
/// that a search of all variables gathers.
pub fn what_hangs_off_the_way_is_only_asked()
    ensures { (resolved : Resolved) (g : Graph) (pattern : Pattern) → is_graph g ≡ true → is_valid_pattern pattern ≡ true → (var : ℕ) → var < length pattern.edge_vars →
        (plan : List Step) → is_plan pattern var plan ≡ true → is_tree pattern.atoms plan ≡ true → (elem : Elem) (wanted : List ℕ) (exprs : List Expr) →
        list_all (λ expr. list_any (λ v. v == read_var expr) wanted) exprs ≡ true →
        list_all (λ (expr : Expr). nat_lt (read_var expr) (length pattern.edge_vars)) exprs ≡ true →
        fold (with_tuple g exprs) [] (option_map_or (λ x. routes resolved g pattern.atoms (off_way wanted plan) (on_way wanted plan) (with_bound nothing_bound var x))
        (whole resolved g pattern.atoms (off_way wanted plan) var (admitted resolved g pattern var elem)) [])
        ≡ option_map_or (λ x. gathered resolved g pattern.atoms exprs plan (with_bound nothing_bound var x) []) (admitted resolved g pattern var elem) [] }
{}

/// Searching along the way to wanted variables takes few look-ups: within the bound of any search where no node near the element has
/// many edges, at most 80 times the sums over the routes, and at most 160 times the sum over the walks where beside the first variable
/// one is wanted. Three are taken before it begins, and at most 16 at the end of each route.
pub fn ways_add()
    ensures sparse { (resolved : Resolved) (g : Graph) (pattern : Pattern) → is_graph g ≡ true → is_valid_pattern pattern ≡ true → (var : ℕ) →
        var < length pattern.edge_vars → (plan : List Step) → is_plan pattern var plan ≡ true → (elem : Elem) (bound : Bound) → admitted resolved g pattern var elem ≡ Some bound →
        (wanted : List ℕ) (last : ℕ) → last ≤ 16 → (edges most : ℕ) → edge_count pattern.edge_vars ≤ edges → IsSparse g edges elem most →
        3 + (asked_most resolved g pattern.atoms (off_way wanted plan) var bound
        + way_most resolved g pattern.atoms (off_way wanted plan) last (on_way wanted plan) (with_bound nothing_bound var bound)) ≤ 16 * (most + 2) ^ (edges + 1) }
    ensures routes { (resolved : Resolved) (g : Graph) (pattern : Pattern) → is_graph g ≡ true → is_valid_pattern pattern ≡ true → (var : ℕ) →
        var < length pattern.edge_vars → (plan : List Step) → is_plan pattern var plan ≡ true → (elem : Elem) (bound : Bound) → admitted resolved g pattern var elem ≡ Some bound →
        (wanted : List ℕ) (last : ℕ) → last ≤ 16 → 3 + (asked_most resolved g pattern.atoms (off_way wanted plan) var bound
        + way_most resolved g pattern.atoms (off_way wanted plan) last (on_way wanted plan) (with_bound nothing_bound var bound)) ≤ 80 * routed_from resolved g pattern wanted plan var elem }
    ensures walks { (resolved : Resolved) (g : Graph) (pattern : Pattern) → is_graph g ≡ true → is_valid_pattern pattern ≡ true → (var : ℕ) →
        var < length pattern.edge_vars → (plan : List Step) → is_plan pattern var plan ≡ true → (elem : Elem) (bound : Bound) → admitted resolved g pattern var elem ≡ Some bound →
        (wanted : List ℕ) (other : ℕ) → list_all (λ v. v == var || v == other) wanted ≡ true → (last : ℕ) → last ≤ 16 → 3 + (asked_most resolved g pattern.atoms (off_way wanted plan) var bound
        + way_most resolved g pattern.atoms (off_way wanted plan) last (on_way wanted plan) (with_bound nothing_bound var bound)) ≤ 160 * walked_from resolved g pattern plan var elem }
{}
