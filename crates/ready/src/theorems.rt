// What is true of urgency and of waiting lists, whatever queue holds them.
ghost use Rattle.ready.specs.Examples.{Placed, Refused, Taken, Unlawful};
ghost use Rattle.ready.specs.Laws.{AtMost128, BeforeChains, JustOneBefore, PlacedAdds, PutKeepsLawful, TakeKeepsLawful};

// Urgency orders all jobs that differ in key, task or number.
pub fn urgency_orders_all_jobs()
    ensures one { JustOneBefore }
    ensures chains { BeforeChains }
{}

// Lists stay lawful, and short; a put loses no job.
pub fn lists_stay_lawful()
    ensures adds { PlacedAdds }
    ensures put { PutKeepsLawful }
    ensures take { TakeKeepsLawful }
    ensures most { AtMost128 }
{}

// Puts and refusals by example.
pub fn puts_by_example()
    ensures refused { Refused }
    ensures placed { Placed }
    ensures taken { Taken }
    ensures unlawful { Unlawful }
{}
