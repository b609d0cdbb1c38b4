//! Orientations of a conflict graph: what they are, which is lower, and that going from successor to successor loses none.
//! The definitions are in `specs/`. Each function here carries theorems about them in its contract, and does nothing else.
#![tactic(auto)]

ghost use Rattle.orientations.specs.Theorems.{RowsCorrespond, NeighboursAgree, AncestorsTell, LegalAdds, W_lists, RowsOrdered, RowsRise, RowsEnd, LowerOrders, LowerReads, EndsStand, SuccessorsStand, AllListed, NoneLost, UpcomingStand, ListsAlike, OrdersFollow, OrdersOriented};
ghost use Rattle.orientations.specs.Worked.{WorkedOrders};

/// Rows and orientations correspond one to one; the neighbours that they speak of are those that a sheet tells; the ancestors
/// that are computed are those that chains of arrows lead from; one step more keeps an orientation acyclic exactly when its
/// assignment is legal.
pub fn rows_hold_orientations()
    ensures correspond { RowsCorrespond }
    ensures neighbours { NeighboursAgree }
    ensures ancestors { AncestorsTell }
    ensures legal { LegalAdds }
{}

/// W lists each neighbour once, ancestors earlier; lower is a strict total order of the legal assignments, all zeros is the
/// lowest and all ones the highest; the next assignment is the next legal one.
pub fn assignments_rise()
    ensures places { W_lists }
    ensures total { RowsOrdered }
    ensures ends { RowsEnd }
    ensures next { RowsRise }
{}

/// Lower is a strict total order of the orientations of a graph, with a lowest and a highest; the successor is the lowest one
/// above, and only the highest has none.
pub fn successor_is_lowest_above()
    ensures total { LowerOrders }
    ensures reads { LowerReads }
    ensures ends { EndsStand }
    ensures next { SuccessorsStand }
{}

/// From the lowest by successors: every orientation, rising, each once, at most n! for n steps; so none is lost. From any place
/// the next k are one list. Two lists without repeats that hold all orientations are equally long.
pub fn successors_lose_none()
    ensures all { AllListed }
    ensures lost { NoneLost }
    ensures upcoming { UpcomingStand }
    ensures alike { ListsAlike }
{}

/// The order of an orientation has every step once and follows every arrow, and two orientations have two orders; exactly one
/// orientation puts every clashing pair as a given order does.
pub fn orders_tell_orientations()
    ensures follow { OrdersFollow }
    ensures oriented { OrdersOriented }
{}

/// The definitions give the worked orders and the steps told.
pub fn worked_orders_hold()
    ensures { WorkedOrders }
{}
