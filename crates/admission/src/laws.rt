//! Laws of the definition. The functions do nothing: their contracts are the laws.
ghost use Rattle.std.specs.Prelude.{◌≡◌, ℕ, ◌+◌, ◌-◌, ◌*◌, ◌<◌, ◌≤◌, List};
ghost use Rattle.admission.specs.Bucket.{Bucket};
ghost use Rattle.admission.specs.Metering.{ask, behind, level_at, Question, behind_all, let_in};
ghost use Rattle.admission.specs.declared.meters.Admission.TheVariants.{Entered, Spent};

/// What one question does, whatever the bucket, the moment and the estimate are.
///
/// A refused question leaves the level but for the leak, and tells it with its estimate and the capacity, which the two would exceed. One that enters adds its estimate, and the level never exceeds the capacity by it. No moment before the last one is kept.
pub fn one_question()
    ensures refused { (bucket : Bucket) (moment estimate level told capacity : ℕ) → (ask bucket moment estimate).0 ≡ Spent level told capacity → ((behind bucket moment estimate).level ≡ level_at bucket moment) × ((level ≡ level_at bucket moment) × ((told ≡ estimate) × ((capacity ≡ bucket.capacity) × (capacity < level + estimate)))) }
    ensures entered { (bucket : Bucket) (moment estimate : ℕ) → (ask bucket moment estimate).0 ≡ Entered → ((behind bucket moment estimate).level ≡ level_at bucket moment + estimate) × ((behind bucket moment estimate).level ≤ bucket.capacity) }
    ensures onward { (bucket : Bucket) (moment estimate : ℕ) → (bucket.last ≤ (behind bucket moment estimate).last) × (moment ≤ (behind bucket moment estimate).last) }
{}

/// What any questions do, one after another, of a bucket whose level is within its capacity.
///
/// The level stays within the capacity. All that enters in a stretch of time is at most the capacity and what leaks in that time.
pub fn any_questions()
    ensures kept { (bucket : Bucket) (questions : List Question) → bucket.level ≤ bucket.capacity → (behind_all bucket questions).level ≤ bucket.capacity }
    ensures limited { (bucket : Bucket) (questions : List Question) → bucket.level ≤ bucket.capacity → let_in bucket questions ≤ bucket.capacity + bucket.rate * ((behind_all bucket questions).last - bucket.last) }
{}
