// What a book comes to by its history: the steps of a book, and what holds after each of them.
#![tactic(auto)]

ghost use Rattle.histories.specs.Sound.{HistoriesHold};

use products::ProductKind;

// For every lawful kind: after the making and after each step the products are apart, they hold the states that contain
// an entered path and no other, and slots are wanting only where there are fewer than states.
pub fn histories_hold<K: ProductKind>()
    ensures { HistoriesHold K.ProductKind.cut }
{}
