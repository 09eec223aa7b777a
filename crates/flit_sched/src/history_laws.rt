ghost use Rattle.std.specs.Prelude.{◌≡◌, ◌++◌, List};
ghost use Rattle.std.specs.List.{AllByRecursion};
ghost use Rattle.flit_model.specs.Maps.{Map, IsLegal, map_after_all};
ghost use Rattle.flit_model.specs.Histories.{history_of, IsRightAt};
ghost use Rattle.flit_model.specs.declared.calls.Entry.{Entry};
ghost use Rattle.flit_model.specs.declared.calls.Placed.{Placed};

/// Where the settled updates and those that are taken are legal, and each read's reply is right at its position, the
/// history is legal; and its map is that of the updates.
pub fn histories_fit()
    ensures legal { (m : Map) (settled taken : List Entry) (reads : List Placed) →
        IsLegal m (settled ++ taken) → AllByRecursion (IsRightAt m settled) reads →
        IsLegal m (history_of settled reads ++ taken) }
    ensures map { (m : Map) (settled taken : List Entry) (reads : List Placed) →
        AllByRecursion (IsRightAt m settled) reads →
        map_after_all m (history_of settled reads ++ taken) ≡ map_after_all m (settled ++ taken) }
{}
