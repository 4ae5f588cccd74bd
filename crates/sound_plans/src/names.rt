//! Laws of the plan of a description that breaks no rule.

ghost use Rattle.std.specs.Prelude.{◌≡◌, true, length, map, nat_lt};
ghost use Rattle.bus_semantics.specs.Common.{list_all, Runnable, instance_of, plan_of, named_once, names_fit, none_is_env, ports_agree, ports_together, instances_exist, is_arranged, rank};
ghost use Rattle.plan_definitions.specs.Common.{Description, Flat, IsWhole};
ghost use Rattle.bus_laws.specs.Common.{AreaPlan, BusPlan, ElemPlan, EventPlan, MachinePlan, ModePortPlan, ServerPlan, Mapping};

/// Each instance that the plan names is one of the plan's.
pub fn plans_name_their_instances()
    ensures { (d : Description) (f : Flat) (p : BusPlan) (m : Mapping) → IsWhole d f p m → instances_exist (plan_of p) ≡ true }
{}

/// The lists of the plan stand by instance, the environment last, and an instance's data elements before its variables.
pub fn plans_are_arranged()
    ensures { (d : Description) (f : Flat) (p : BusPlan) (m : Mapping) → IsWhole d f p m → is_arranged (plan_of p) ≡ true }
{}

/// Names are names, pairs of names and paths of at most 8 names. No path begins as the environment is named, and within an
/// instance one port name is used in one way.
pub fn names_of_plans_fit()
    ensures fit { (d : Description) (f : Flat) (p : BusPlan) (m : Mapping) → IsWhole d f p m → names_fit (plan_of p) ≡ true }
    ensures env { (d : Description) (f : Flat) (p : BusPlan) (m : Mapping) → IsWhole d f p m → none_is_env (plan_of p) ≡ true }
    ensures ports { (d : Description) (f : Flat) (p : BusPlan) (m : Mapping) → IsWhole d f p m → ports_agree (plan_of p) ≡ true }
{}

/// No two instances have one path. Within an instance, or the environment, no two things of one kind have one name, and
/// within a machine no two modes. (Points are told apart by who calls: `points_are_named_once`.)
pub fn things_of_plans_are_named_once()
    ensures instances { (d : Description) (f : Flat) (p : BusPlan) (m : Mapping) → IsWhole d f p m →
        named_once (map (λ t. (0, t)) (plan_of p).names) ≡ true }
    ensures elements { (d : Description) (f : Flat) (p : BusPlan) (m : Mapping) → IsWhole d f p m →
        named_once (map (λ (e : ElemPlan). (rank (plan_of p) e.instance, e.name)) (plan_of p).elements) ≡ true }
    ensures servers { (d : Description) (f : Flat) (p : BusPlan) (m : Mapping) → IsWhole d f p m →
        named_once (map (λ (s : ServerPlan). (s.instance, s.name)) (plan_of p).servers) ≡ true }
    ensures areas { (d : Description) (f : Flat) (p : BusPlan) (m : Mapping) → IsWhole d f p m →
        named_once (map (λ (a : AreaPlan). (a.instance, a.name)) (plan_of p).areas) ≡ true }
    ensures machines { (d : Description) (f : Flat) (p : BusPlan) (m : Mapping) → IsWhole d f p m →
        named_once (map (λ (n : MachinePlan). (rank (plan_of p) n.instance, n.name)) (plan_of p).machines) ≡ true }
    ensures modes { (d : Description) (f : Flat) (p : BusPlan) (m : Mapping) → IsWhole d f p m →
        list_all (λ (n : MachinePlan). named_once (map (λ t. (0, t)) n.modes)) (plan_of p).machines ≡ true }
    ensures mode_ports { (d : Description) (f : Flat) (p : BusPlan) (m : Mapping) → IsWhole d f p m →
        named_once (map (λ (t : ModePortPlan). (rank (plan_of p) t.instance, t.name)) (plan_of p).mode_ports) ≡ true }
    ensures events { (d : Description) (f : Flat) (p : BusPlan) (m : Mapping) → IsWhole d f p m →
        named_once (map (λ (v : EventPlan). (rank (plan_of p) (instance_of (plan_of p) v.runnable), v.name)) (plan_of p).events) ≡ true }
    ensures runnables { (d : Description) (f : Flat) (p : BusPlan) (m : Mapping) → IsWhole d f p m →
        named_once (map (λ (r : Runnable). (r.instance, r.name)) (plan_of p).runnables) ≡ true }
{}

/// Each required mode element of the plan has a machine of the plan.
pub fn mode_ports_have_machines()
    ensures { (d : Description) (f : Flat) (p : BusPlan) (m : Mapping) → IsWhole d f p m →
        list_all (λ (t : ModePortPlan). nat_lt t.machine (length (plan_of p).machines)) (plan_of p).mode_ports ≡ true }
{}

/// The data elements of one port stand side by side (Software Component Template: VariableDataPrototype, in declared order).
pub fn ports_stand_together()
    ensures { (d : Description) (f : Flat) (p : BusPlan) (m : Mapping) → IsWhole d f p m → ports_together (plan_of p) ≡ true }
{}
