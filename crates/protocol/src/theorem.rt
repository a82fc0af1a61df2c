ghost use Rattle.protocol.specs.Promise.{ConfirmationsStand};
ghost use Rattle.protocol.specs.Cases.{Cases};
ghost use Rattle.protocol.specs.Confirms.{ConfirmationsHappen};

use books::Book;
use logs::Log;

// Whatever the calls, a job that was confirmed keeps its place, its pools and its result: for every book and log.
pub fn confirmations_stand<B: Book, L: Log>()
    ensures { ConfirmationsStand B.Book.meaning L.Log.limit }
{}

// Jobs do get confirmed, on one box to nine.
pub fn confirmations_happen()
    ensures { ConfirmationsHappen }
{}

// The counts at every size, the clashes of the shipped books and two recoveries, computed.
pub fn cases()
    ensures { Cases }
{}
