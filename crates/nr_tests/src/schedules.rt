//! Schedules over worked examples, and what they write: chunks as the runs report them, and around them the steps
//! that an independent program makes.

/// Shard 1 goes ahead to its last chunk, and shard 0 follows to its third; some steps aren't enabled.
pub(crate) const SKEWED: &str = "open 1\n\
     seal 1\n\
     publish 1\n\
     publish 1\n\
     publish 1\n\
     publish 1\n\
     open 1\n\
     take 1 0 1\n\
     open 0\n\
     seal 0\n\
     take 1 0 1\n\
     publish 0\n\
     take 1 0 1\n\
     seal 1\n\
     take 1 1 1\n\
     take 1 0 3\n\
     publish 1\n\
     open 0\n\
     seal 0\n\
     take 0 0 1\n\
     take 0 1 1\n\
     seal 0\n\
     publish 0\n\
     open 0\n\
     take 0 0 2\n\
     seal 0\n";

/// What it writes of its steps.
pub(crate) const SKEWED_LINES: &str = "ok\n\
     ok\n\
     chunk 1 1 848f65f6a81ab8c57ff1b324483cbee8527035fd212a39d0da63dd00ad405ea5 0 0\n\
     ok\n\
     ok\n\
     ok\n\
     ok\n\
     ok\n\
     no 3 0 0\n\
     ok\n\
     ok\n\
     chunk 1 0 496f3edddc3cf5abb17cb1a8dc4c244678caebdc891b1be78bb80ad7c43ff2f3 0 0\n\
     tx 68ba1b92cfc77daf015212a50bbe064742146c91f6794aabc05f12e46e67c808 ok c2d22bdf02078d767c38be7392e2ecedb8f563b9364388a4772a04cf76425e1f\n\
     out 1 c2d22bdf02078d767c38be7392e2ecedb8f563b9364388a4772a04cf76425e1f e4f5b20417e49d09c23379c016b1365b1b791630557da21028132b012c67500b\n\
     no 3 0 0\n\
     ok\n\
     ok\n\
     no 2 1 1\n\
     ok\n\
     no 2 2 0\n\
     no 1 1 0\n\
     ok\n\
     no 2 1 0\n\
     ok\n\
     ok\n\
     ok\n\
     chunk 2 0 496f3edddc3cf5abb17cb1a8dc4c244678caebdc891b1be78bb80ad7c43ff2f3 0 0\n\
     ok\n\
     ok\n\
     ok\n\
     ok\n\
     chunk 3 0 703df5afcdc99899ce72026ec5f1cba2a10f6c6e3fae7420a9670924e47098b2 0 0\n\
     tx 2931a44de1a49b86fc8f425ef82c2f23232f14baaecab691bef341fc97e13217 ok 022c6ed3e074a92b31064c45f84fe758bb98e14c5c821cd4c227c480f3b68f99\n\
     out 1 022c6ed3e074a92b31064c45f84fe758bb98e14c5c821cd4c227c480f3b68f99 1e85fac0364754cc528e8816af348a4051518adfcaf9395931513fda272de72e\n";

/// Its totals: the first transfer has arrived in the chunk that is open, and the second is in flight.
pub(crate) const SKEWED_TOTALS: &str = "total supply 110\n\
     total accounts 105\n\
     total receipts 5\n\
     total burnt 0\n\
     total places 2 1 0 0 1\n";

/// What `rest` and a further `open 0` write behind it.
pub(crate) const REST_LINES: &str = "ok\n\
     ok\n\
     ok\n\
     ok\n\
     chunk 4 0 703df5afcdc99899ce72026ec5f1cba2a10f6c6e3fae7420a9670924e47098b2 0 0\n\
     ok\n\
     ok\n\
     ok\n\
     ok\n\
     chunk 5 0 703df5afcdc99899ce72026ec5f1cba2a10f6c6e3fae7420a9670924e47098b2 0 0\n\
     ok\n\
     ok\n\
     ok\n\
     ok\n\
     ok\n\
     chunk 5 1 d5269559efe6609725e0e32877c39dc4016d22841217baaa8468e0dfa29552e2 0 0\n\
     run c2d22bdf02078d767c38be7392e2ecedb8f563b9364388a4772a04cf76425e1f value - 0 0\n\
     run 022c6ed3e074a92b31064c45f84fe758bb98e14c5c821cd4c227c480f3b68f99 value - 0 0\n\
     ok\n\
     no 4 5 0\n";

/// The totals then.
pub(crate) const REST_TOTALS: &str = "total supply 110\n\
     total accounts 110\n\
     total receipts 0\n\
     total burnt 0\n\
     total places 2 2 0 0 0\n";

/// Steps of one shard out of order, over one transfer.
pub(crate) const OUT_OF_ORDER: &str = "seal 0\n\
     open 0\n\
     publish 0\n\
     seal 0\n\
     publish 0\n\
     open 0\n\
     take 0 0 1\n";

/// What they write.
pub(crate) const OUT_OF_ORDER_LINES: &str = "no 1 0 0\n\
     ok\n\
     no 1 1 0\n\
     ok\n\
     chunk 1 0 fe170e308d93871477cdecdbb8010805a138e10446ccaab0ce64313b79886e32 0 0\n\
     tx 923475a294f1ed3815d5e18071828f002f4190a1afa36e7d5adb41e226af71d2 ok 1db49a92f6565af840d649a74ad2eacfc1d2c593723750fc7a83746f38e0c950\n\
     out 0 1db49a92f6565af840d649a74ad2eacfc1d2c593723750fc7a83746f38e0c950 cc4b3fa3598b60d747c37afc920f1c9ef7456e774c36c53fca5ca167ca6df6e0\n\
     ok\n\
     ok\n\
     ok\n\
     total supply 120\n\
     total accounts 120\n\
     total receipts 0\n\
     total burnt 0\n\
     total places 1 1 0 0 0\n";

/// What `rest` alone writes over it.
pub(crate) const REST_ALONE_LINES: &str = "ok\n\
     ok\n\
     chunk 1 0 fe170e308d93871477cdecdbb8010805a138e10446ccaab0ce64313b79886e32 0 0\n\
     tx 923475a294f1ed3815d5e18071828f002f4190a1afa36e7d5adb41e226af71d2 ok 1db49a92f6565af840d649a74ad2eacfc1d2c593723750fc7a83746f38e0c950\n\
     out 0 1db49a92f6565af840d649a74ad2eacfc1d2c593723750fc7a83746f38e0c950 cc4b3fa3598b60d747c37afc920f1c9ef7456e774c36c53fca5ca167ca6df6e0\n\
     ok\n\
     ok\n\
     ok\n\
     ok\n\
     chunk 2 0 92320917050449af130cdb3b2e0fd713aae8154575253e0513b30f32d6d5fa43 0 0\n\
     run 1db49a92f6565af840d649a74ad2eacfc1d2c593723750fc7a83746f38e0c950 value - 0 0\n\
     ok\n\
     total supply 120\n\
     total accounts 120\n\
     total receipts 0\n\
     total burnt 0\n\
     total places 1 1 0 0 0\n";
