//! The laws of frames.

ghost use Rattle.std.specs.Prelude.{◌≡◌, ◌<◌, ◌++◌, ◌∷◌, [], ℕ, ℤ, List, length, take};
ghost use Rattle.std.specs.List.{AllByRecursion};
ghost use Rattle.rte_value.specs.declared.value.Value.{Value};
ghost use Rattle.rte_value.specs.Values.{words_of};
ghost use Rattle.signal_link.specs.declared.link_elem.LinkElem.{LinkElem};
ghost use Rattle.signal_link.specs.declared.unframer.Found.{Found};
ghost use Rattle.signal_link.specs.declared.unframer.Found.TheVariants.{Whole, More, BadFrame};
ghost use Rattle.signal_link.specs.Feeding.{AreFed, Feed, all_given, all_used};
ghost use Rattle.signal_link.specs.Frames.{Pair, frame, frames};
ghost use Rattle.signal_link.specs.Links.{AreLinks, AreOfWords};
ghost use Rattle.signal_link.specs.Unframing.{Finds, IsBeginning, IsFrames, IsGood, Kept, Shows, StandsFor, fresh};

/// Bytes have one list of good frames at their beginning, and one rest.
pub fn frames_are_one()
    ensures { (links : List LinkElem) (bytes : List ℕ) (pairs others : List Pair) (rest left : List ℕ) → AreOfWords links →
        IsFrames links bytes pairs rest → IsFrames links bytes others left → (pairs ≡ others) × (rest ≡ left) }
{}

/// A feed has one answer.
pub fn answers_are_one()
    ensures { (u : Kept) (piece : List ℕ) (found other : Found) → AreOfWords u.links →
        Finds u piece found → Finds u piece other → found ≡ other }
{}

/// A good frame that is cut anywhere shows that more may come, and a whole one its value. Bytes with which no good frame begins
/// stay so whatever comes behind them. So the first byte with which no good frame begins shows a bad frame, alone or with more behind it.
pub fn cut_frames_show_more()
    ensures cut { (links : List LinkElem) (k : ℕ) (ws : List ℤ) (j : ℕ) → IsGood links k ws → j < length (frame k ws) →
        Shows links (take j (frame k ws)) More }
    ensures whole { (links : List LinkElem) (k : ℕ) (v : Value) (after : List ℕ) → IsGood links k (words_of v) →
        Shows links (frame k (words_of v) ++ after) (Whole k v) }
    ensures earliest { (links : List LinkElem) (bytes after : List ℕ) (byte : ℕ) → Shows links bytes More →
        (IsBeginning links (bytes ++ byte ∷ []) → ⊥) → Shows links ((bytes ++ byte ∷ []) ++ after) BadFrame }
    ensures begun { (links : List LinkElem) (bytes after : List ℕ) → IsBeginning links (bytes ++ after) → IsBeginning links bytes }
{}

/// However bytes are cut into pieces, an unframer gives the values of the good frames at their beginning: those that were sent.
/// Whatever pieces whole good frames come in, nothing is left.
pub fn pieces_are_all_one()
    ensures stands { (u after : Kept) (feeds : List Feed) (bytes : List ℕ) (pairs : List Pair) → StandsFor u bytes pairs →
        AreFed u feeds after → StandsFor after (bytes ++ all_used feeds) (pairs ++ all_given feeds) }
    ensures sent { (links : List LinkElem) (feeds : List Feed) (after : Kept) (pairs : List Pair) → AreLinks links → AreOfWords links →
        AllByRecursion (λ (p : Pair). IsGood links p.0 p.1) pairs → AreFed (fresh links) feeds after → all_used feeds ≡ frames pairs →
        (all_given feeds ≡ pairs) × (after ≡ fresh links) }
{}
