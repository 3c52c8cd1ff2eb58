//! Laws of the definitions, each a clause of a function that does nothing.

ghost use Rattle.std.specs.Prelude.{ℕ, suc, ◌≡◌, ◌≢◌, ◌+◌, ◌-◌, ◌*◌, ◌/◌, ◌%◌, ◌^◌, ◌<◌, ◌≤◌, List, [], ◌∷◌, ◌++◌, length, slice_index, nat_eq, nat_lt, nat_le, not, if◌then◌else◌, option_to_list, ℤ, pos, ◌+ℤ◌, FitsSigned, int_rem, Option, Bool, false};
ghost use Rattle.std.specs.Int.{w32};
ghost use Rattle.std.proofs.Common.{to_z};
ghost use Rattle.base_words.specs.Arithmetic.{word, moved, unsigned_quotient, signed_quotient, unsigned_remainder, signed_remainder, bit_clear, shift_amount, shift_left, shift_right, shift_right_signed, rotate_right, is_bit_set, shifted_left_carry, shifted_right_carry, signed_less, signed_at_most};
ghost use Rattle.base_words.specs.Bytes.{read, write, cut, write_all, AreBytes};
ghost use Rattle.base_words.specs.declared.conditions.Flags.{Flags};
ghost use Rattle.base_words.specs.Flags.{compare_flags, holds};
ghost use Rattle.base_words.specs.Runs.{run, events, Goes};

/// What is read after a write of `w` bytes: the number written, cut to the width, or what was
/// there before.
pub fn reads_after_write()
    ensures same { (w a v : ℕ) (mem : List ℕ) → a + w ≤ length mem →
        read w a (write w a v mem) ≡ cut w v }
    ensures apart { (w b u a v : ℕ) (mem : List ℕ) →
        ((i : ℕ) → i < w → (k : ℕ) → k < u → b + i ≢ a + k) →
        read w b (write u a v mem) ≡ read w b mem }
    ensures below { (w b u a v : ℕ) (mem : List ℕ) → b + w ≤ a →
        read w b (write u a v mem) ≡ read w b mem }
    ensures above { (w b u a v : ℕ) (mem : List ℕ) → a + u ≤ b →
        read w b (write u a v mem) ≡ read w b mem }
{}

/// What a write of `w` bytes does to the length and to each byte.
pub fn bytes_after_write()
    ensures as_long { (w a v : ℕ) (mem : List ℕ) → length (write w a v mem) ≡ length mem }
    ensures inside { (w a v : ℕ) (mem : List ℕ) (k : ℕ) → k < w → a + w ≤ length mem →
        slice_index (write w a v mem) (a + k) ≡ v / 256 ^ k % 256 }
    ensures outside { (w a v : ℕ) (mem : List ℕ) (j : ℕ) → ((k : ℕ) → k < w → j ≢ a + k) →
        slice_index (write w a v mem) j ≡ slice_index mem j }
    ensures still_bytes { (w a v : ℕ) (mem : List ℕ) → AreBytes mem → AreBytes (write w a v mem) }
{}

/// A write counts only the low bytes of its value, hides an earlier one at its place, and may
/// change places with one that lies apart.
pub fn writes()
    ensures cut_first { (w a v : ℕ) (mem : List ℕ) → write w a (cut w v) mem ≡ write w a v mem }
    ensures over { (w a v u : ℕ) (mem : List ℕ) → write w a v (write w a u mem) ≡ write w a v mem }
    ensures in_either_order { (u b x w a v : ℕ) (mem : List ℕ) →
        ((i : ℕ) → i < u → (k : ℕ) → k < w → b + i ≢ a + k) →
        write u b x (write w a v mem) ≡ write w a v (write u b x mem) }
{}

/// A number that is read or cut fits its width, and reads of neighbours are parts of the read of
/// both.
pub fn widths()
    ensures fits { (w a : ℕ) (mem : List ℕ) → read w a mem < 256 ^ w }
    ensures cut_is { (w v : ℕ) → cut w v ≡ v % 256 ^ w }
    ensures byte { (v : ℕ) → cut 1 v ≡ v % 2 ^ 8 }
    ensures half { (v : ℕ) → cut 2 v ≡ v % 2 ^ 16 }
    ensures word_sized { (v : ℕ) → cut 4 v ≡ v % 2 ^ 32 }
    ensures parts { (u w a : ℕ) (mem : List ℕ) →
        read (u + w) a mem ≡ read u a mem + 256 ^ u * read w (a + u) mem }
{}

/// A read within one of two memories that stand one after the other.
pub fn joined_memories()
    ensures first { (w a : ℕ) (xs ys : List ℕ) → a + w ≤ length xs →
        read w a (xs ++ ys) ≡ read w a xs }
    ensures second { (w a b : ℕ) (xs ys : List ℕ) → a ≡ length xs + b →
        read w a (xs ++ ys) ≡ read w b ys }
{}

/// Numbers written one after another: each is read back, and the rest stays.
pub fn writes_in_a_row()
    ensures as_long { (w a : ℕ) (vs mem : List ℕ) → length (write_all w a vs mem) ≡ length mem }
    ensures each { (w a : ℕ) (vs mem : List ℕ) (k : ℕ) →
        k < length vs → a + w * length vs ≤ length mem →
        read w (a + w * k) (write_all w a vs mem) ≡ cut w (slice_index vs k) }
    ensures apart { (u b w a : ℕ) (vs mem : List ℕ) →
        ((i : ℕ) → i < u → (k : ℕ) → k < w * length vs → b + i ≢ a + k) →
        read u b (write_all w a vs mem) ≡ read u b mem }
    ensures below { (u b w a : ℕ) (vs mem : List ℕ) → b + u ≤ a →
        read u b (write_all w a vs mem) ≡ read u b mem }
    ensures above { (u b w a : ℕ) (vs mem : List ℕ) → a + w * length vs ≤ b →
        read u b (write_all w a vs mem) ≡ read u b mem }
{}

/// Quotients by 0 and their remainders, and the least signed number by -1.
pub fn quotients()
    ensures unsigned_by_zero { (x : ℕ) → unsigned_quotient x 0 ≡ 0 }
    ensures signed_by_zero { (x : ℕ) → signed_quotient x 0 ≡ 0 }
    ensures least_by_minus_one { signed_quotient 0x80000000 0xffffffff ≡ 0x80000000 }
    ensures unsigned_rest { (x y : ℕ) → x < 2 ^ 32 →
        unsigned_remainder x y ≡ (if nat_eq y 0 then x else x % y) }
    ensures signed_rest { (x y : ℕ) → x < 2 ^ 32 → y < 2 ^ 32 → 0 < y →
        to_z w32 (signed_remainder x y) ≡ int_rem (to_z w32 x) (to_z w32 y) }
    ensures signed_rest_by_zero { (x : ℕ) → x < 2 ^ 32 → signed_remainder x 0 ≡ x }
{}

/// A shift by 32 places or more leaves no bit but copies of the sign.
pub fn shifts_of_all_bits()
    ensures left { (x n : ℕ) → 32 ≤ shift_amount n → shift_left x n ≡ 0 }
    ensures right { (x n : ℕ) → x < 2 ^ 32 → 32 ≤ shift_amount n → shift_right x n ≡ 0 }
    ensures signed { (x n : ℕ) → x < 2 ^ 32 → 31 ≤ shift_amount n →
        shift_right_signed x n ≡ (if nat_lt x (2 ^ 31) then 0 else 2 ^ 32 - 1) }
{}

/// The carry after a shift is the last bit shifted out.
pub fn carries_of_shifts()
    ensures left { (x n : ℕ) (c : Bool) → 0 < shift_amount n → shift_amount n ≤ 32 →
        shifted_left_carry x n c ≡ is_bit_set x (32 - shift_amount n) }
    ensures left_beyond { (x n : ℕ) (c : Bool) → 32 < shift_amount n →
        shifted_left_carry x n c ≡ false }
    ensures right { (x n : ℕ) (c : Bool) → 0 < shift_amount n →
        shifted_right_carry x n c ≡ is_bit_set x (shift_amount n - 1) }
    ensures right_beyond { (x n : ℕ) (c : Bool) → x < 2 ^ 32 → 32 < shift_amount n →
        shifted_right_carry x n c ≡ false }
{}

/// Results are words.
pub fn results_fit()
    ensures unsigned_quotients { (x y : ℕ) → x < 2 ^ 32 → unsigned_quotient x y < 2 ^ 32 }
    ensures signed_quotients { (x y : ℕ) → signed_quotient x y < 2 ^ 32 }
    ensures unsigned_remainders { (x y : ℕ) → unsigned_remainder x y < 2 ^ 32 }
    ensures signed_remainders { (x y : ℕ) → signed_remainder x y < 2 ^ 32 }
    ensures cleared { (x y : ℕ) → x < 2 ^ 32 → bit_clear x y < 2 ^ 32 }
    ensures left { (x n : ℕ) → shift_left x n < 2 ^ 32 }
    ensures right { (x n : ℕ) → x < 2 ^ 32 → shift_right x n < 2 ^ 32 }
    ensures signed { (x n : ℕ) → x < 2 ^ 32 → shift_right_signed x n < 2 ^ 32 }
    ensures rotated { (x n : ℕ) → x < 2 ^ 32 → rotate_right x n < 2 ^ 32 }
{}

/// Signed order is the order from the least signed number on, and a signed offset is added as an
/// integer where the sum is a word.
pub fn signed_numbers()
    ensures less { (x y : ℕ) → x < 2 ^ 32 → y < 2 ^ 32 →
        signed_less x y ≡ nat_lt (word (x + 2 ^ 31)) (word (y + 2 ^ 31)) }
    ensures at_most { (x y : ℕ) → x < 2 ^ 32 → y < 2 ^ 32 →
        signed_at_most x y ≡ nat_le (word (x + 2 ^ 31)) (word (y + 2 ^ 31)) }
    ensures offset { (a b : ℕ) (z : ℤ) → b < 2 ^ 32 → FitsSigned w32 z → pos a +ℤ z ≡ pos b →
        moved a z ≡ b }
{}

/// After a comparison the conditions EQ, NE, CC, LS, LT and LE hold exactly where their relations
/// do, and a condition of odd number is the opposite of the one before it.
pub fn comparisons()
    ensures equal { (x y : ℕ) → x < 2 ^ 32 → y < 2 ^ 32 → holds 0 (compare_flags x y) ≡ nat_eq x y }
    ensures unequal { (x y : ℕ) → x < 2 ^ 32 → y < 2 ^ 32 →
        holds 1 (compare_flags x y) ≡ not (nat_eq x y) }
    ensures below { (x y : ℕ) → x < 2 ^ 32 → y < 2 ^ 32 → holds 3 (compare_flags x y) ≡ nat_lt x y }
    ensures at_most { (x y : ℕ) → x < 2 ^ 32 → y < 2 ^ 32 →
        holds 9 (compare_flags x y) ≡ nat_le x y }
    ensures signed_below { (x y : ℕ) → x < 2 ^ 32 → y < 2 ^ 32 →
        holds 11 (compare_flags x y) ≡ signed_less x y }
    ensures signed_at_most { (x y : ℕ) → x < 2 ^ 32 → y < 2 ^ 32 →
        holds 13 (compare_flags x y) ≡ signed_at_most x y }
    ensures opposite { (k : ℕ) (f : Flags) → k < 7 → holds (2 * k + 1) f ≡ not (holds (2 * k) f) }
{}

/// A run of `j + k` steps is one of `j` and then one of `k`, and a state that the step keeps stays.
pub fn runs<S, E>()
    ensures sum { (step : S → S) (j k : ℕ) (s : S) →
        run step (j + k) s ≡ run step k (run step j s) }
    ensures events_of_sum { (step : S → S) (event : S → Option E) (j k : ℕ) (s : S) →
        events step event (j + k) s ≡ events step event j s ++ events step event k (run step j s) }
    ensures still { (step : S → S) (n : ℕ) (s : S) → step s ≡ s → run step n s ≡ s }
    ensures silent { (step : S → S) (event : S → Option E) (n : ℕ) (s : S) →
        step s ≡ s → event s ≡ None → events step event n s ≡ [] }
{}

/// Runs of known lengths: of no step, of one, joined, and with one step before.
pub fn lengths<S, E>()
    ensures stay { (step : S → S) (event : S → Option E) (s : S) → Goes step event 0 s s [] }
    ensures once { (step : S → S) (event : S → Option E) (s : S) →
        Goes step event 1 s (step s) (option_to_list (event s)) }
    ensures onward { (step : S → S) (event : S → Option E) (j k : ℕ) (s t u : S) (xs ys : List E) →
        Goes step event j s t xs → Goes step event k t u ys →
        Goes step event (j + k) s u (xs ++ ys) }
    ensures next { (step : S → S) (event : S → Option E) (k : ℕ) (s t u : S) (es : List E) →
        step s ≡ t → event s ≡ None → Goes step event k t u es → Goes step event (suc k) s u es }
    ensures next_event { (step : S →
        S) (event : S → Option E) (k : ℕ) (s t u : S) (x : E) (es : List E) →
        step s ≡ t → event s ≡ Some x → Goes step event k t u es →
        Goes step event (suc k) s u (x ∷ es) }
{}
