// Laws of the definitions.
ghost use Rattle.std.specs.Prelude.{ℕ, ◌+◌, ◌≤◌, ◌^◌};
ghost use Rattle.ty_map.specs.Ascending.{IsAscending};
ghost use Rattle.ty_map.specs.Fresh.{fresh, HasNoKeyTwice};
ghost use Rattle.ty_map.specs.Heights.{greatest_height};
ghost use Rattle.ty_map.specs.Shape.{Shape, pairs};

/// From one tree to a third there are at most as many fresh nodes as by way of a second, where no key of the third
/// stands twice; and none does where keys ascend.
pub fn fresh_nodes_add_up()
    ensures sum { (a b c : Shape) → HasNoKeyTwice c → fresh a c ≤ fresh a b + fresh b c }
    ensures differ { (t : Shape) → IsAscending (pairs t) → HasNoKeyTwice t }
{}

/// The greatest height that so many pairs allow is the greatest number whose power of 2 is at most the square of one
/// more than their count.
pub fn greatest_heights()
    ensures within { (count : ℕ) → 2 ^ greatest_height count ≤ (count + 1) ^ 2 }
    ensures greatest { (count h : ℕ) → 2 ^ h ≤ (count + 1) ^ 2 → h ≤ greatest_height count }
{}
