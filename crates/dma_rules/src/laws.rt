//! Laws of choices of rows: functions that do nothing, whose contracts are the laws.
ghost use Rattle.std.specs.Prelude.{◌≡◌, ◌≢◌, ◌<◌, ◌↔◌, ℕ, List, true, length, slice_index_or};
ghost use Rattle.choice_rank.specs.Choices.{IsChoice};
ghost use Rattle.search_api.specs.Meaning.{IsLawful};
ghost use Rattle.dma_model.specs.declared.table.DmaRequest.{DmaRequest};
ghost use Rattle.dma_rules.specs.Judged.{CanBeJudged, dma_meaning};
ghost use Rattle.dma_rules.specs.Streams.{AreOnOwnStreams, meets, shape_of};

/// A choice is legal exactly where the rows of each two requests differ in controller or in stream.
pub fn legal_choices_share_no_stream()
    ensures { (requests : List DmaRequest) (choice : List ℕ) → IsChoice (shape_of requests) choice → (meets requests choice ≡ true) ↔ AreOnOwnStreams requests choice }
{}

/// What the judge means is lawful: requests that are more than their streams leave no legal choice, and where they are
/// not, a box of one choice is legal.
pub fn verdicts_are_lawful()
    ensures { (requests : List DmaRequest) → CanBeJudged requests → IsLawful (dma_meaning requests) }
{}
