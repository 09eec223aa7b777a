ghost use Rattle.flit_tree_heap.specs.SmallHeaps.{ExchangesCanBeWon};
ghost use Rattle.flit_tree_heap.specs.Exchanges.{FlagsAreWon, FreezesAreWon, LinksAreWon, SwingsAreWon};
ghost use Rattle.flit_tree_heap.specs.Laws.{FreezesAddNone, InnerRowsLast, LeavesAnswer, LedSearchesEnd, LinkedWordsAreOpen, LoadedFlagsStay, LoadedFrozenRests, LoadedValuesLast, NewSearchesEnd, NextRowLeads, PrivateWordsAreBlind, RowTwoIsInner, RowTwoLeads, SameIsLater, ShadowsRecover, SwingsShorten, TrailsGrow, TrailsLast, TreesAreLinked, WalksAreCounted, WriteBacksSettle};
ghost use Rattle.flit_tree_heap.specs.Opened.{FreshHeapIsKept, OpeningsAreKept};
ghost use Rattle.flit_words.specs.declared.layouts.Layout.{Layout};
ghost use Rattle.std.specs.Prelude.{List, ℕ};

/// A write-back of any word that everybody may reach keeps the heap and settles what waits there.
/// Words that nobody else may reach play no part. The shadows are always a lawful image with the
/// map of the settled updates. Everybody may reach the words of linked rows.
pub fn kept_heaps()
    ensures settles { WriteBacksSettle }
    ensures blind { PrivateWordsAreBlind }
    ensures same { SameIsLater }
    ensures recovers { ShadowsRecover }
    ensures reached { LinkedWordsAreOpen }
{}

/// Each lawful image, persistent as a whole, is kept; so is the fresh heap.
pub fn openings()
    ensures lawful { OpeningsAreKept }
    ensures fresh { FreshHeapIsKept }
{}

/// The four exchanges keep the heap, and leave one that is later.
pub fn exchanges()
    ensures flag { (l : Layout) (free : List ℕ) → FlagsAreWon l free }
    ensures freeze { (l : Layout) (free : List ℕ) → FreezesAreWon l free }
    ensures link { (l : Layout) (free : List ℕ) → LinksAreWon l free }
    ensures swing { (l : Layout) (free : List ℕ) → SwingsAreWon l free }
{}

/// What a searcher knows of edges and rows begins at row 2, grows with its loads, lasts while others
/// change the heap, and at a leaf answers its call.
pub fn searches()
    ensures inner { RowTwoIsInner }
    ensures top { RowTwoLeads }
    ensures next { NextRowLeads }
    ensures rows { InnerRowsLast }
    ensures loaded { LoadedValuesLast }
    ensures trails { TrailsLast }
    ensures grows { TrailsGrow }
    ensures flags { LoadedFlagsStay }
    ensures frozen { LoadedFrozenRests }
    ensures answers { LeavesAnswer }
{}

/// A search that is led, or a new one, comes to a leaf over so many inner rows, which can be counted;
/// a won swing leaves each view's tree fewer of them.
pub fn walks()
    ensures linked { TreesAreLinked }
    ensures led { LedSearchesEnd }
    ensures new { NewSearchesEnd }
    ensures counted { WalksAreCounted }
    ensures freeze { FreezesAddNone }
    ensures swing { SwingsShorten }
{}

/// What each of the four exchanges asks can be met: small heaps in which they are won.
pub fn examples()
    ensures { ExchangesCanBeWon }
{}
