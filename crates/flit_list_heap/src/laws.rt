ghost use Rattle.flit_list_heap.specs.Laws.{NothingIsRelied, WriteBacksKeep, ShutWordsKeep, ShadowsRecover, OpeningsAreKept, MarksKeep, UnlinksKeep, LinksKeep, LinkWordsAreOpen, SawLasts, SpotLasts, NextLasts, HadLasts, GoneLasts, HereLasts, NotMineLasts, LoadsSee, GapsAreSeen, RowsAreSeen, PersistentRests, PersistentMarks, PersistentLeads, SpotsAreRooted, SearchesUnlink, RemovesMark, InsertsLink};

/// A write-back, by anybody, of a word that everybody may reach keeps what is kept, and leaves what others rely on; so do
/// changes of words that nobody may reach; and nothing changes where nothing is done.
pub fn changes()
    ensures nothing { NothingIsRelied }
    ensures write_backs { WriteBacksKeep }
    ensures shut_words { ShutWordsKeep }
{}

/// The shadows are a lawful image, with the map after the settled updates, which are legal.
pub fn recoveries()
    ensures { ShadowsRecover }
{}

/// Every lawful opening is kept.
pub fn openings()
    ensures { OpeningsAreKept }
{}

/// The won exchanges: the mark of a removed row, the link past a marked row, the link to a new row.
pub fn exchanges()
    ensures marks { MarksKeep }
    ensures unlinks { UnlinksKeep }
    ensures links { LinksKeep }
{}

/// Everybody may reach the heads and the next words of linked rows.
pub fn link_words()
    ensures { LinkWordsAreOpen }
{}

/// What a search has seen of link words, and the positions at which its key was absent or present, last while others
/// change the heap.
pub fn lasting()
    ensures saw { SawLasts }
    ensures spot { SpotLasts }
    ensures next { NextLasts }
    ensures had { HadLasts }
    ensures gone { GoneLasts }
    ensures here { HereLasts }
    ensures not_mine { NotMineLasts }
{}

/// What a load of a link word gives.
pub fn loads()
    ensures saw { LoadsSee }
    ensures gone { GapsAreSeen }
    ensures here { RowsAreSeen }
{}

/// What is persistent of what was seen: the word is at rest, its mark stands in the shadow, and the row that it leads to is
/// settled.
pub fn persistence()
    ensures rests { PersistentRests }
    ensures marks { PersistentMarks }
    ensures leads { PersistentLeads }
    ensures rooted { SpotsAreRooted }
{}

/// What an operation knows of the words when its exchange is won makes it one of the three exchanges.
pub fn own_exchanges()
    ensures unlinks { SearchesUnlink }
    ensures marks { RemovesMark }
    ensures links { InsertsLink }
{}
