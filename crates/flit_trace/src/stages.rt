ghost use Rattle.std.specs.Prelude.{◌≡◌};
ghost use Rattle.flit_trace.specs.Drafts.{takes_version, takes_structure, takes_place, takes_rows, takes_workers, takes_versions, takes_start, is_in_block, takes_body, is_ended, is_early};

/// Which line may come next.
#[derive(Clone, Copy, Debug, PartialEq, Eq)]
pub(crate) enum Stage {
    AtVersion,
    AtStructure,
    /// `place`, or what comes where it is left out.
    AtPlace,
    AtRows,
    AtWorkers,
    /// `versions`, or what comes where it is left out.
    AtVersions,
    /// A start block, or what comes where it is left out.
    AtStart,
    /// A word line of the start block, or `begin`.
    InBlock,
    /// A body line or `end`.
    InBody,
    /// Nothing.
    Ended,
}

impl Stage {
    /// Whether the line that tells the version may come next.
    pub(crate) fn takes_version(self) -> bool
        ensures { result ≡ takes_version self }
    {
        matches!(self, Stage::AtVersion)
    }

    /// Whether the line that tells the structure may come next.
    pub(crate) fn takes_structure(self) -> bool
        ensures { result ≡ takes_structure self }
    {
        matches!(self, Stage::AtStructure)
    }

    /// Whether `place` may come next.
    pub(crate) fn takes_place(self) -> bool
        ensures { result ≡ takes_place self }
    {
        matches!(self, Stage::AtPlace)
    }

    /// Whether `rows` may come next; it may where `place` may, which can be left out.
    pub(crate) fn takes_rows(self) -> bool
        ensures { result ≡ takes_rows self }
    {
        matches!(self, Stage::AtPlace | Stage::AtRows)
    }

    /// Whether `workers` may come next.
    pub(crate) fn takes_workers(self) -> bool
        ensures { result ≡ takes_workers self }
    {
        matches!(self, Stage::AtWorkers)
    }

    /// Whether `versions` may come next.
    pub(crate) fn takes_versions(self) -> bool
        ensures { result ≡ takes_versions self }
    {
        matches!(self, Stage::AtVersions)
    }

    /// Whether a start block may come next; it may where `versions` may, which can be left out.
    pub(crate) fn takes_start(self) -> bool
        ensures { result ≡ takes_start self }
    {
        matches!(self, Stage::AtVersions | Stage::AtStart)
    }

    /// Whether a start block is open.
    pub(crate) fn is_in_block(self) -> bool
        ensures { result ≡ is_in_block self }
    {
        matches!(self, Stage::InBlock)
    }

    /// Whether a line of the body may come next; what comes before it and is missing was left out.
    pub(crate) fn takes_body(self) -> bool
        ensures { result ≡ takes_body self }
    {
        matches!(self, Stage::AtVersions | Stage::AtStart | Stage::InBody)
    }

    /// Whether a line of the head may still come.
    pub(crate) fn is_early(self) -> bool
        ensures { result ≡ is_early self }
    {
        !matches!(self, Stage::InBlock | Stage::InBody | Stage::Ended)
    }

    /// Whether `end` has been read.
    pub(crate) fn is_ended(self) -> bool
        ensures { result ≡ is_ended self }
    {
        matches!(self, Stage::Ended)
    }
}
