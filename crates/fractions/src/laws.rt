//! What ratios of any two numbers say of the rationals that they are.

ghost use Rattle.std.specs.Prelude.{◌≡◌, ◌↔◌, ◌<◌, ℕ, ℤ, pos, ◌*ℤ◌, ◌<ℤ◌, ◌≤ℤ◌};
ghost use Rattle.std.specs.Ordering.{int_cmp};
ghost use Rattle.fractions.specs.Rationals.{IsAtMost, IsBelow, ratio, rational_cmp};

/// Ratios are ranked by their cross products: over numbers above 0, two ratios are one rational exactly where the cross
/// products are equal, and the order of two is that of the cross products.
pub fn ratios_are_ranked_by_cross_products()
    ensures same { (n m : ℤ) (d e : ℕ) → 0 < d → 0 < e → (ratio n d ≡ ratio m e)
        ↔ (n *ℤ pos e ≡ m *ℤ pos d) }
    ensures below { (n m : ℤ) (d e : ℕ) → 0 < d → 0 < e → IsBelow (ratio n d) (ratio m e)
        ↔ ((n *ℤ pos e) <ℤ (m *ℤ pos d)) }
    ensures at_most { (n m : ℤ) (d e : ℕ) → 0 < d → 0 < e
        → IsAtMost (ratio n d) (ratio m e) ↔ ((n *ℤ pos e) ≤ℤ (m *ℤ pos d)) }
    ensures order { (n m : ℤ) (d e : ℕ) → 0 < d → 0 < e
        → rational_cmp (ratio n d) (ratio m e) ≡ int_cmp (n *ℤ pos e) (m *ℤ pos d) }
{}
