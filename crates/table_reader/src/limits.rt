//! The conditions of the laws on numbers: all rows meet them. Each function is a theorem: it does nothing, and its
//! clauses are proved.

ghost use Rattle.table_reader.specs.Fits.{FitsGroupRow, FitsPacketRow};

use flow_measure::report::{GroupRow, PacketRow};

/// The numbers of the row of a packet are those of its types.
pub fn packet_rows_fit(row: PacketRow)
    ensures { FitsPacketRow row }
{}

/// The numbers of the row of a frame or field are those of its types.
pub fn group_rows_fit(row: GroupRow)
    ensures { FitsGroupRow row }
{}
