//! What an adoption that was cut off comes to. It is the contract of a function that does nothing.
ghost use Rattle.jnl_format.specs.Recovery.{Content};
ghost use Rattle.jnl_format.specs.declared.dialect.Dialect.TheVariants.{Wide};
ghost use Rattle.jnl_replay.specs.Adopting.{StandsAdopted};
ghost use Rattle.jnl_replay.specs.Plan.{IsPlanAs};
ghost use Rattle.jnl_replay.specs.declared.plan.Plan.{Plan};
ghost use Rattle.image_adopt.specs.Adopting.{EndsAs, IsAdoptedAs, MayChange, RefusesAdoption};
ghost use Rattle.image_adopt.specs.declared.answers.Adopted.{Adopted};
ghost use Rattle.image_adopt.specs.declared.answers.AdoptRefusal.{AdoptRefusal};

/// An adoption of what a crash of an adoption left comes to what the first one would have come to, and isn't refused.
pub fn adoption_goes_on()
    ensures ends { (old image new : Content) (plan : Plan) (how : Adopted) → IsPlanAs Wide old plan → StandsAdopted plan old image → IsAdoptedAs image new how → EndsAs plan old new }
    ensures unrefused { (old image : Content) (plan : Plan) (why : AdoptRefusal) → MayChange old → IsPlanAs Wide old plan → StandsAdopted plan old image → RefusesAdoption image why → ⊥ }
{}
