//! Worked states.

ghost use Rattle.std.specs.Prelude.{◌≡◌, [], ◌∷◌, map};
ghost use Rattle.std.specs.List.{range_with_len};
ghost use Rattle.case_maker.specs.Draws.{draw_state};

/// The first nine states of case 1, worked out.
pub fn worked_states()
    ensures { map (draw_state 1) (range_with_len 1 9) ≡ 39022 ∷ 61087 ∷ 20196 ∷ 45005 ∷ 3882 ∷ 21259 ∷ 65216 ∷ 19417
        ∷ 30502 ∷ [] }
{}
