/// Why a row refuses a call.
#[derive(Clone, Copy, PartialEq, Eq, Debug)]
pub enum RowRefusal {
    /// The count of occupied places is beyond the slice.
    CountBeyondSlice,
    /// Every place of the slice is occupied.
    NoRoom,
    /// The place is not among the occupied ones.
    NoSuchPlace,
}
