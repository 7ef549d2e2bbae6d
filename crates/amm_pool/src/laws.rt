//! What the formulas keep, as laws over all numbers. The functions do nothing.
ghost use Rattle.std.specs.Prelude.{ℕ, ◌≡◌, ◌+◌, ◌-◌, ◌*◌, ◌/◌, ◌≤◌};
ghost use Rattle.amm_model.specs.Root.{IsRoot, root_of};
ghost use Rattle.amm_model.specs.Swap.{Admits};
ghost use Rattle.amm_model.specs.Formulas.{IsBacked, fee_shares_of, later_shares_of};

/// The root that the formulas speak of is the one number that its rule names: its square is at
/// most the number, and the next square is above it.
pub fn root_meets_its_rule()
    ensures holds { (n : ℕ) → IsRoot n (root_of n) }
    ensures only { (n r : ℕ) → IsRoot n r → r ≡ root_of n }
{}

/// What the rule of a swap admits keeps the product of the reserves, at any fee.
pub fn swap_keeps_product()
    ensures { (fee r0 r1 b0 b1 in0 in1 : ℕ) → Admits fee r0 r1 b0 b1 in0 in1 → r0 * r1 ≤ b0 * b1 }
{}

/// The product of the reserves for each squared share does not fall: neither by the shares of a
/// mint nor by the parts of a burn.
pub fn shares_keep_product()
    ensures mint { (supply r0 r1 a0 a1 : ℕ) →
        (r0 * r1) * ((supply + later_shares_of a0 a1 supply r0 r1) * (supply + later_shares_of a0 a1 supply r0 r1)) ≤ ((r0 + a0) * (r1 + a1)) * (supply * supply) }
    ensures burn { (shares supply r0 r1 b0 b1 : ℕ) → shares ≤ supply → r0 ≤ b0 → r1 ≤ b1 →
        (r0 * r1) * ((supply - shares) * (supply - shares)) ≤ ((b0 - shares * b0 / supply) * (b1 - shares * b1 / supply)) * (supply * supply) }
{}

/// With the protocol's shares the supply stays within the root of the product of the reserves.
pub fn fee_keeps_backing()
    ensures { (supply r0 r1 k_last : ℕ) → IsBacked supply r0 r1 k_last →
        (supply + fee_shares_of supply r0 r1 k_last) * (supply + fee_shares_of supply r0 r1 k_last) ≤ r0 * r1 }
{}
