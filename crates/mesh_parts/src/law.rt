//! What the members of a group are, as a set and in their order.
ghost use Rattle.std.specs.Prelude.{◌↔◌, ℕ, List, Contains};
ghost use Rattle.std.specs.List.Sorted.{IsStrictlySortedBy};
ghost use Rattle.mesh_parts.specs.Group.{pairs_of};
ghost use Rattle.mesh_parts.specs.Named.{Ascend};
ghost use Rattle.mesh_parts.specs.Pairs.{IsMember, pair_cmp};
ghost use Rattle.mesh_parts.specs.declared.group.Group.{Group};
ghost use Rattle.mesh_parts.specs.declared.group.Pair.{Pair};

/// Laws: the pairs among some hosts are exactly the members of the group, and they ascend by the first and
/// then by the second name, so that none comes twice.
pub fn law_pairs()
    ensures members { (hosts : List (List ℕ)) (group : Group) (pair : Pair) → Contains (pairs_of hosts group) pair ↔ IsMember hosts group pair }
    ensures order { (hosts : List (List ℕ)) (group : Group) → Ascend hosts → IsStrictlySortedBy pair_cmp (pairs_of hosts group) }
{}
