//! What the definitions of the two formats come to.

ghost use Rattle.std.specs.Prelude.{◌≡◌, ◌↔◌, ◌*◌, ℕ, List, length, IsSome};
ghost use Rattle.std.specs.List.{AllPass};
ghost use Rattle.toml.specs.Data.{string};
ghost use Rattle.hex.specs.Hex.{is_hex_digit};
ghost use Rattle.bhs_files.specs.Shapes.{seed};

use bhs_model::SEED_BYTES;

/// A seed is spelled by twice `SEED_BYTES` hexadecimal digits of either case, and by no other text.
pub fn a_seed_is_hexadecimal_digits()
    ensures { (text : List ℕ) → IsSome (seed (string text))
        ↔ ((length text ≡ 2 * SEED_BYTES) × AllPass is_hex_digit text) }
{}
